// Content-Range (RFC 7233, section 4.2).
ghost use Rattle.std.specs.Prelude.{◌≡◌};
ghost use Rattle.pp_valid.specs.ContentRanges.{content_range_of, range_in, range_of_value, span_in};

use crate::end_to_end::sole_end_to_end;
use pp_text::{Fields, cut, read_u64, same};

/// The part of a body that a response carries.
#[derive(Clone, Copy, Debug, PartialEq, Eq)]
pub enum ContentRange {
    /// The first and the last byte, both inclusive, and the length of the whole body.
    Span(u64, u64, u64),
    /// No part of a body of this length: a response 416.
    Unsatisfied(u64),
}

/// The Content-Range of a response: None where there is none or more than one, Connection names
/// it, the unit is not `bytes`, it is none of `a-b/n` with `a <= b < n` and `*/n`, or a number
/// exceeds `u64::MAX`.
pub fn read_content_range(fields: &Fields<'_, '_>) -> Option<ContentRange>
    ensures { result ≡ content_range_of fields.now }
{
    read_value(sole_end_to_end(fields, b"content-range")?)
}

fn read_value(value: &[u8]) -> Option<ContentRange>
    ensures { result ≡ range_of_value value.now }
{
    let (unit, range) = cut(value, b' ')?;
    if !same(b"bytes", unit) {
        return None;
    }
    let (ends, length) = cut(range, b'/')?;
    let n = read_u64(length)?;
    if ends == b"*".as_slice() {
        return Some(ContentRange::Unsatisfied(n));
    }
    let (first, last) = cut(ends, b'-')?;
    let first = read_u64(first)?;
    let last = read_u64(last)?;
    if first <= last && last < n {
        Some(ContentRange::Span(first, last, n))
    } else {
        None
    }
}
