// The room that the lines of a kept response take.
ghost use Rattle.std.specs.Prelude.{◌≡◌, ◌-◌, ◌^◌, ◌<◌, ◌≤◌, [], filter, length, min, nat_le, option_copied};
ghost use Rattle.pp_text.specs.Fields.{field_at};
ghost use Rattle.pp_text.specs.Lines.{line_of, lines_of};
ghost use Rattle.pp_valid.specs.Kept.{date_line_len, date_value, has_room_for, is_checksum, is_of, is_of_one_message, is_renewed};

use crate::end_to_end::is_dropped;
use httpdate::HttpDate;
use pp_text::{Fields, is_forwarded, same};

/// The bytes that may be renewed by a later response of the version.
const RENEWED_ROOM: usize = 2048;

/// The bytes that last as long as the version.
const LASTING_ROOM: usize = 16384;

/// The length of `date: Sun, 06 Nov 1994 08:49:37 GMT` and CRLF.
const DATE_LINE_LEN: usize = 37;

/// Which lines of a kept response.
#[derive(Clone, Copy)]
enum Lines {
    Renewed,
    Lasting,
}

/// Whether the lines that are kept with a response fit the room for them.
pub fn has_room_for(fields: &Fields<'_, '_>) -> bool
    ensures { result ≡ has_room_for fields.now }
{
    let date_len = date_line_len(date_value(fields));
    let renewed = date_len <= RENEWED_ROOM && fit(fields, Lines::Renewed, RENEWED_ROOM - date_len);
    renewed && fit(fields, Lines::Lasting, LASTING_ROOM)
}

/// The Date of a response, where it is one (RFC 7231, section 7.1.1.2) and Connection does not name it.
pub fn date_value<'a>(fields: &Fields<'a, '_>) -> Option<&'a [u8]>
    ensures { option_copied result ≡ date_value fields.now }
{
    if is_dropped(fields, b"date") {
        return None;
    }
    let value = fields.first(b"date")?;
    if HttpDate::parse_ascii(value).is_ok() {
        Some(value)
    } else {
        None
    }
}

fn date_line_len(value: Option<&[u8]>) -> usize
    ensures { result ≡ min (date_line_len (option_copied value.entry)) (2 ^ 64 - 1) }
{
    match value {
        Some(value) => value.len().saturating_add(8),
        None => DATE_LINE_LEN,
    }
}

/// Whether the lines of this kind have at most so many bytes.
fn fit(fields: &Fields<'_, '_>, kind: Lines, room: usize) -> bool
    requires { room ≤ 16384 }
    ensures { result ≡ nat_le (length (lines_of (filter (is_of kind fields.now) fields.now))) room }
{
    let mut left = room;
    for index in 0..fields.len() {
        if is_of(fields, kind, index) {
            let len = line_len(fields, index);
            if len > left {
                return false;
            }
            left -= len;
        }
    }
    true
}

/// The bytes of a field's line: name, colon, blank, value and line end.
pub fn line_len(fields: &Fields<'_, '_>, index: usize) -> usize
    requires { index < length fields.now }
    ensures { result ≡ min (length (line_of (field_at fields.now index))) (2 ^ 64 - 1) }
{
    let text_len = fields
        .name(index)
        .len()
        .saturating_add(fields.value(index).len());
    text_len.saturating_add(4)
}

fn is_of(fields: &Fields<'_, '_>, kind: Lines, index: usize) -> bool
    requires { index < length fields.now }
    ensures { result ≡ is_of kind fields.now (field_at fields.now index) }
{
    if !is_forwarded(fields, index) {
        return false;
    }
    let name = fields.name(index);
    match kind {
        Lines::Renewed => is_renewed(name),
        Lines::Lasting => !(is_of_one_message(name) || is_renewed(name)),
    }
}

/// Whether a field of this name is renewed by a later response of the version (RFC 7234, section 4.3.4).
pub fn is_renewed(name: &[u8]) -> bool
    ensures { result ≡ is_renewed (name.now, []) }
{
    same(b"expires", name) || same(b"cache-control", name)
}

/// Whether a field of this name is of one message, and not of the body: each reply has one of its own,
/// or none.
pub fn is_of_one_message(name: &[u8]) -> bool
    ensures { result ≡ is_of_one_message (name.now, []) }
{
    let is_length = same(b"content-length", name) || same(b"content-range", name);
    let is_time = same(b"age", name) || same(b"date", name);
    is_length || is_time || is_checksum(name)
}

/// Whether a field of this name is a checksum of what its message brings, which may be a part of the
/// body (RFC 9530, section 2).
fn is_checksum(name: &[u8]) -> bool
    ensures { result ≡ is_checksum (name.now, []) }
{
    same(b"content-md5", name) || same(b"content-digest", name)
}
