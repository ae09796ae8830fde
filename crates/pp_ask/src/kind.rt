// The kinds of asks, and the lines that are theirs.
ghost use Rattle.std.specs.Prelude.{◌≡◌};
ghost use Rattle.pp_ask.specs.Puts.{IsPut};
ghost use Rattle.pp_ask.specs.Texts.{kind_lines, last_text, length_line, line, method_of, range_line, received_length};

use crate::lines::{ASK_LEN, TooLong, put, put_line, put_number};
use arrayvec::ArrayVec;
use pp_text::{Fields, read_u64};
use pp_valid::Tag;

/// What an origin is asked.
#[derive(Clone, Copy, Debug, PartialEq, Eq)]
pub enum AskKind<'t> {
    /// The whole body.
    Whole,
    /// From the first offset on, up to and with the last where there is one.
    Range(u64, Option<u64>),
    /// The bytes between two offsets, both inclusive, of the version with this tag: the whole body of
    /// another (RFC 7233, section 3.2).
    Hole(u64, u64, &'t Tag),
    /// Whether the version with this tag still stands (RFC 7232, section 3.2).
    Check(&'t Tag),
    /// What the client asks, as it asks it.
    Pass,
}

/// The method of an ask.
pub fn method<'m>(kind: &AskKind<'_>, received: &'m [u8]) -> &'m [u8]
    ensures { result.now ≡ method_of kind.now received.now }
{
    match *kind {
        AskKind::Whole | AskKind::Range(_, _) | AskKind::Hole(_, _, _) | AskKind::Check(_) => {
            b"GET"
        }
        AskKind::Pass => received,
    }
}

/// Writes the lines of the kind.
pub fn put_kind(
    kind: &AskKind<'_>,
    fields: &Fields<'_, '_>,
    out: &mut ArrayVec<u8, ASK_LEN>,
) -> Result<(), TooLong>
    ensures { IsPut (kind_lines kind.now fields.now) out.old.items out.new.items result }
{
    match *kind {
        AskKind::Whole => Ok(()),
        AskKind::Range(first, last) => put_range(first, last, out),
        AskKind::Hole(first, last, tag) => {
            put_range(first, Some(last), out)?;
            put_tag(b"if-range", tag, out)
        }
        AskKind::Check(tag) => put_tag(b"if-none-match", tag, out),
        AskKind::Pass => put_length(fields, out),
    }
}

/// Writes the line that asks for a range.
fn put_range(first: u64, last: Option<u64>, out: &mut ArrayVec<u8, ASK_LEN>) -> Result<(), TooLong>
    ensures { IsPut (range_line first last) out.old.items out.new.items result }
{
    put(b"range: bytes=", out)?;
    put_number(first, out)?;
    put(b"-", out)?;
    put_last(last, out)?;
    put(b"\r\n", out)
}

fn put_last(last: Option<u64>, out: &mut ArrayVec<u8, ASK_LEN>) -> Result<(), TooLong>
    ensures { IsPut (last_text last) out.old.items out.new.items result }
{
    match last {
        Some(last) => put_number(last, out),
        None => Ok(()),
    }
}

/// Writes the line of a field that names a version.
fn put_tag(name: &[u8], tag: &Tag, out: &mut ArrayVec<u8, ASK_LEN>) -> Result<(), TooLong>
    ensures { IsPut (line name.now tag.now) out.old.items out.new.items result }
{
    put_line(name, tag.as_slice(), out)
}

/// Writes the length of the client's body, where its request tells it.
fn put_length(fields: &Fields<'_, '_>, out: &mut ArrayVec<u8, ASK_LEN>) -> Result<(), TooLong>
    ensures { IsPut (length_line (received_length fields.now)) out.old.items out.new.items result }
{
    let Some(n) = length_received(fields) else {
        return Ok(());
    };
    put(b"content-length: ", out)?;
    put_number(n, out)?;
    put(b"\r\n", out)
}

fn length_received(fields: &Fields<'_, '_>) -> Option<u64>
    ensures { result ≡ received_length fields.now }
{
    read_u64(fields.first(b"content-length")?)
}
