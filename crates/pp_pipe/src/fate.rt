// What becomes of the connection behind a response.
ghost use Rattle.std.specs.Prelude.{◌≡◌, codes};
ghost use Rattle.std.specs.List.{list_any};
ghost use Rattle.pp_text.specs.Fields.{values_of};
ghost use Rattle.pp_head.specs.Shown.{shown_response};
ghost use Rattle.pp_pipe.specs.Ends.{is_above_0 as above_0, is_end_in_doubt as end_in_doubt, is_framed_twice as framed_twice, is_without_body as without_body, tells_of_body as of_body};
ghost use Rattle.pp_pipe.specs.Front.{fate_of as fate, fate_told, stays_open as stays};

use pp_head::ResponseHead;
use pp_text::{Fields, read_u64};

/// What becomes of a connection behind a response (RFC 2616, sections 8.1.2 and 19.6.2).
#[derive(Clone, Copy, Debug, PartialEq, Eq)]
pub(crate) enum Fate {
    /// It is closed.
    Closes,
    /// It goes on.
    Stays,
    /// It goes on, and takes asks behind one that is not answered.
    Pipelines,
}

/// Whether the connection goes on behind the response with this head.
pub fn stays_open(head: &ResponseHead<'_, '_>) -> bool
    ensures { result ≡ stays (shown_response head.now) }
{
    fate_of(head) != Fate::Closes
}

/// What becomes of the connection behind the response with this head.
pub(crate) fn fate_of(head: &ResponseHead<'_, '_>) -> Fate
    ensures { result ≡ fate (shown_response head.now) }
{
    // What follows could be the rest of this response, and would be taken for the next.
    if is_end_in_doubt(head) {
        return Fate::Closes;
    }
    told(head)
}

/// What the response itself says of it.
fn told(head: &ResponseHead<'_, '_>) -> Fate
    ensures { result ≡ fate_told (shown_response head.now) }
{
    if head.fields.has_item(b"connection", b"close") {
        Fate::Closes
    } else if head.minor == 0 {
        if head.fields.has_item(b"connection", b"keep-alive") {
            Fate::Stays
        } else {
            Fate::Closes
        }
    } else {
        Fate::Pipelines
    }
}

/// Whether another reader may see the end of the response elsewhere.
fn is_end_in_doubt(head: &ResponseHead<'_, '_>) -> bool
    ensures { result ≡ end_in_doubt (shown_response head.now) }
{
    let is_told_of = is_without_body(head.status) && tells_of_body(&head.fields);
    is_told_of || is_framed_twice(head.minor, &head.fields)
}

fn is_without_body(status: u16) -> bool
    ensures { result ≡ without_body status }
{
    status == 204 || status == 205 || status == 304
}

fn tells_of_body(fields: &Fields<'_, '_>) -> bool
    ensures { result ≡ of_body fields.now }
{
    fields.has(b"transfer-encoding") || has_length_above_0(fields)
}

fn has_length_above_0(fields: &Fields<'_, '_>) -> bool
    ensures { result ≡ list_any above_0 (values_of (codes "content-length") fields.now) }
{
    fields
        .values(b"content-length")
        .any(|value| is_above_0(value))
}

fn is_above_0(value: &[u8]) -> bool
    ensures { result ≡ above_0 value.now }
{
    match read_u64(value) {
        Some(n) => 0 < n,
        None => true,
    }
}

fn is_framed_twice(minor: u8, fields: &Fields<'_, '_>) -> bool
    ensures { result ≡ framed_twice minor fields.now }
{
    let is_faulty = minor == 0 || fields.has(b"content-length");
    fields.has(b"transfer-encoding") && is_faulty
}
