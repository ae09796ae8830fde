// From the fields of a request to its range (RFC 7233, sections 2.1 and 3.1).
ghost use Rattle.std.specs.Prelude.{◌≡◌, IfSome};
ghost use Rattle.pp_ranges.specs.Ranges.{IsInOrder, range_of, range_of_item};

use crate::range::Range;
use pp_text::{Fields, cut, read_u64, same, sole_item, sole_value};

/// The range that counts: None where there is no Range field or more than one, the unit is not
/// `bytes`, there is no range or more than one, or it is none of `a-b` with `a <= b`, `a-` and
/// `-k`, each a number of at most `u64::MAX`.
pub fn read_range(fields: &Fields<'_, '_>) -> Option<Range>
    ensures answer { result ≡ range_of fields.now }
    ensures in_order { IfSome result IsInOrder }
{
    let value = sole_value(fields, b"range")?;
    let (unit, set) = cut(value, b'=')?;
    if !same(b"bytes", unit) {
        return None;
    }
    read_item(sole_item(set)?)
}

fn read_item(item: &[u8]) -> Option<Range>
    ensures answer { result ≡ range_of_item item.now }
    ensures in_order { IfSome result IsInOrder }
{
    let (first, last) = cut(item, b'-')?;
    if first.is_empty() {
        return Some(Range::Last(read_u64(last)?));
    }
    let first = read_u64(first)?;
    if last.is_empty() {
        return Some(Range::From(first));
    }
    let last = read_u64(last)?;
    if first <= last {
        Some(Range::Span(first, last))
    } else {
        None
    }
}
