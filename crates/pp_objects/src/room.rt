// How many bytes the lines have that a response renews.
ghost use Rattle.std.specs.Prelude.{◌≡◌, ◌-◌, ◌^◌, ◌<◌, None, filter, length, min};
ghost use Rattle.pp_text.specs.Fields.{field_at};
ghost use Rattle.pp_text.specs.Lines.{line_of, lines_of};
ghost use Rattle.pp_valid.specs.Kept.{date_value};
ghost use Rattle.pp_objects.specs.Kept.{date_field, has_room, or_else};
ghost use Rattle.pp_objects.specs.Texts.{is_chosen};

use crate::choice::{Choice, is_chosen};
use httpdate::HttpDate;
use pp_fresh::Times;
use pp_text::Fields;
use pp_valid::{date_value, line_len};

/// The bytes of the lines that a later response of the version may renew.
pub(crate) const RENEWED_ROOM: usize = 2048;

/// The bytes of a date's line beside its value: `date: ` and CRLF.
const DATE_LINE: usize = 8;

/// Whether what a response renews fits the room for it, where these fields were kept before.
pub(crate) fn has_room(kept: &Fields<'_, '_>, fields: &Fields<'_, '_>, times: Times) -> bool
    ensures { result ≡ has_room kept.now fields.now times }
{
    let date = date_len(fields, times.response);
    let expires = latest_len(Choice::NewExpires, Choice::KeptExpires, kept, fields);
    let control = latest_len(
        Choice::NewCacheControl,
        Choice::KeptCacheControl,
        kept,
        fields,
    );
    date.saturating_add(expires).saturating_add(control) <= RENEWED_ROOM
}

/// The bytes of the lines of the new fields of a kind, or of the kept ones where there are none.
fn latest_len(new: Choice, old: Choice, kept: &Fields<'_, '_>, fields: &Fields<'_, '_>) -> usize
    ensures { result ≡ min (length (lines_of (or_else (filter (is_chosen new fields.now) fields.now) (filter (is_chosen old kept.now) kept.now)))) (2 ^ 64 - 1) }
{
    let len = chosen_len(new, fields);
    if len > 0 {
        return len;
    }
    chosen_len(old, kept)
}

fn chosen_len(choice: Choice, fields: &Fields<'_, '_>) -> usize
    ensures { result ≡ min (length (lines_of (filter (is_chosen choice fields.now) fields.now))) (2 ^ 64 - 1) }
{
    let mut len = 0usize;
    for index in 0..fields.len() {
        if is_chosen(choice, fields, index) {
            len = len.saturating_add(line_len(fields, index));
        }
    }
    len
}

fn date_len(fields: &Fields<'_, '_>, came: u64) -> usize
    ensures { result ≡ min (length (lines_of (date_field (date_value fields.now) came))) (2 ^ 64 - 1) }
{
    match date_value(fields) {
        Some(value) => value.len().saturating_add(DATE_LINE),
        None => second_len(came),
    }
}

fn second_len(came: u64) -> usize
    ensures { result ≡ length (lines_of (date_field None came)) }
{
    match HttpDate::from_unix_secs(came) {
        Ok(date) => text_len(&date.to_bytes()) + DATE_LINE,
        Err(_) => 0,
    }
}

fn text_len(text: &[u8]) -> usize
    ensures length { result ≡ length text.now }
    ensures few { result < 2 ^ 63 }
{
    text.len()
}
