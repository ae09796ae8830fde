// What a response renews of the fields that are kept, and those that are put into a text.
ghost use Rattle.std.specs.Prelude.{◌≡◌, ◌++◌, codes, filter, OnOk, OnErr};
ghost use Rattle.pp_valid.specs.Kept.{date_value};
ghost use Rattle.pp_objects.specs.Kept.{date_field, or_else, renewal_of, refreshed_of};
ghost use Rattle.pp_objects.specs.Texts.{AddsFields, HasRoomFor, is_chosen};

use crate::choice::{Choice, is_chosen};
use crate::text::KeptText;
use httpdate::HttpDate;
use pp_fresh::Times;
use pp_text::{Fields, OutOfMemory};
use pp_valid::date_value;

/// Adds the fields that are chosen. Fails only where there was no room for them.
pub(crate) fn put_chosen(
    text: &mut KeptText,
    choice: Choice,
    fields: &Fields<'_, '_>,
) -> Result<(), OutOfMemory>
    ensures ok { OnOk result (AddsFields text.old text.new (filter (is_chosen choice fields.now) fields.now)) }
    ensures full { OnErr result (HasRoomFor (filter (is_chosen choice fields.now) fields.now) text.old → ⊥) }
{
    for index in 0..fields.len() {
        if is_chosen(choice, fields, index) {
            text.put(fields.name(index), fields.value(index))?;
        }
    }
    Ok(())
}

/// Adds the fields that a response renews, where these were kept before.
pub(crate) fn put_renewal(
    text: &mut KeptText,
    kept: &Fields<'_, '_>,
    fields: &Fields<'_, '_>,
    times: Times,
) -> Result<(), OutOfMemory>
    ensures ok { OnOk result (AddsFields text.old text.new (renewal_of kept.now fields.now times)) }
    ensures full { OnErr result (HasRoomFor (renewal_of kept.now fields.now times) text.old → ⊥) }
{
    put_date(text, fields, times.response)?;
    put_latest(text, Choice::NewExpires, Choice::KeptExpires, kept, fields)?;
    put_latest(
        text,
        Choice::NewCacheControl,
        Choice::KeptCacheControl,
        kept,
        fields,
    )
}

/// Adds what is kept after a response of the version.
pub(crate) fn put_refreshed(
    text: &mut KeptText,
    kept: &Fields<'_, '_>,
    fields: &Fields<'_, '_>,
    times: Times,
) -> Result<(), OutOfMemory>
    ensures ok { OnOk result (AddsFields text.old text.new (refreshed_of kept.now fields.now times)) }
    ensures full { OnErr result (HasRoomFor (refreshed_of kept.now fields.now times) text.old → ⊥) }
{
    put_chosen(text, Choice::Unchanged, kept)?;
    put_renewal(text, kept, fields, times)
}

/// Adds the new fields of a kind, or the kept ones where there are none.
fn put_latest(
    text: &mut KeptText,
    new: Choice,
    old: Choice,
    kept: &Fields<'_, '_>,
    fields: &Fields<'_, '_>,
) -> Result<(), OutOfMemory>
    ensures ok { OnOk result (AddsFields text.old text.new (or_else (filter (is_chosen new fields.now) fields.now) (filter (is_chosen old kept.now) kept.now))) }
    ensures full { OnErr result (HasRoomFor (or_else (filter (is_chosen new fields.now) fields.now) (filter (is_chosen old kept.now) kept.now)) text.old → ⊥) }
{
    let before = text.len();
    put_chosen(text, new, fields)?;
    if text.len() > before {
        return Ok(());
    }
    put_chosen(text, old, kept)
}

/// Adds the date of a response that came at this second.
fn put_date(text: &mut KeptText, fields: &Fields<'_, '_>, came: u64) -> Result<(), OutOfMemory>
    ensures ok { OnOk result (AddsFields text.old text.new (date_field (date_value fields.now) came)) }
    ensures full { OnErr result (HasRoomFor (date_field (date_value fields.now) came) text.old → ⊥) }
{
    match date_value(fields) {
        Some(value) => text.put(b"date", value),
        None => put_second(text, came),
    }
}

fn put_second(text: &mut KeptText, came: u64) -> Result<(), OutOfMemory>
    ensures ok { OnOk result (AddsFields text.old text.new (date_field None came)) }
    ensures full { OnErr result (HasRoomFor (date_field None came) text.old → ⊥) }
{
    let Ok(date) = HttpDate::from_unix_secs(came) else {
        return Ok(());
    };
    text.put(b"date", &date.to_bytes())
}
