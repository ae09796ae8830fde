// What is asked where nothing is known.
ghost use Rattle.std.specs.Prelude.{◌≡◌, ◌≤◌, IfSome};
ghost use Rattle.pp_head.specs.Shown.{shown_request};
ghost use Rattle.pp_plan.specs.Fetch.{asked_range, fetch_range, front_of};

use pp_head::RequestHead;
use pp_ranges::{Range, read_range};

/// Bytes of a chunk.
const CHUNK_LEN: u64 = 4096;

/// The range to ask for where a request is fetched: the first offset and the last, inclusive, where
/// there is one. It begins at the front of a chunk, so that the chunk can be kept. None where the
/// whole body is asked for: the request has no range that counts, or an If-Range that nothing is
/// known of.
pub fn fetch_range(request: &RequestHead<'_, '_>) -> Option<(u64, Option<u64>)>
    ensures { result ≡ fetch_range (shown_request request.now).fields }
{
    if request.fields.has(b"if-range") {
        return None;
    }
    match read_range(&request.fields) {
        Some(range) => asked_range(range),
        None => None,
    }
}

fn asked_range(range: Range) -> Option<(u64, Option<u64>)>
    ensures { result ≡ asked_range range }
{
    match range {
        Range::Span(first, last) => Some((front_of(first), Some(last))),
        Range::From(first) => Some((front_of(first), None)),
        Range::Last(_) => None,
    }
}

/// The first offset of the chunk that has this one.
fn front_of(offset: u64) -> u64
    ensures value { result ≡ front_of offset }
    ensures before { result ≤ offset }
{
    offset - offset % CHUNK_LEN
}
