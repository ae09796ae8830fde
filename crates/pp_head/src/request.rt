// The head of a request (RFC 2616, section 5).
ghost use Rattle.std.specs.Prelude.{◌≡◌, take};
ghost use Rattle.pp_head.specs.Request.{request_at};
ghost use Rattle.pp_head.specs.Shown.{state_of, IfWhole, shown_request, spanned_request, AreRequestSpans};

use crate::limits::{fits, reaches_limit};
use crate::part::ends_in_target;
use crate::scratch::{Scratch, write_fields};
use crate::state::HeadState;
use httparse::Status;
use httparse::spans::{RequestSpans, parse_request};
use pp_text::{FieldSpan, Fields};

/// The parts of a request's head, in the bytes that it was read from.
#[derive(Drop)]
pub struct RequestHead<'a, 's> {
    pub method: &'a [u8],
    /// The Request-URI as it stands there.
    pub target: &'a [u8],
    /// The minor version: 0 for HTTP/1.0, and 1 for HTTP/1.1.
    pub minor: u8,
    pub fields: Fields<'a, 's>,
    /// Bytes of the head, from the first empty line before it through the empty line that ends it.
    pub length: usize,
}

/// Where the parts of the head are, those of its fields in the scratch.
pub(crate) fn locate(bytes: &[u8], scratch: &mut Scratch) -> HeadState<RequestSpans>
    ensures value { state_of (spanned_request bytes.now scratch.new.fields) result ≡ request_at bytes.now }
    ensures within { IfWhole result (λ spans. AreRequestSpans (take spans.len bytes.now) scratch.new.fields spans) }
{
    match parse_request(bytes, &mut scratch.headers) {
        Ok(Status::Complete(head)) => {
            if fits(&bytes[..head.len], head.headers) {
                write_fields(&scratch.headers[..head.headers], &mut scratch.fields);
                HeadState::Whole(head)
            } else {
                HeadState::TooLong
            }
        }
        Ok(Status::Partial) => {
            if reaches_limit(bytes) {
                HeadState::TooLong
            } else {
                HeadState::More
            }
        }
        Err(_) => {
            if reaches_limit(bytes) {
                HeadState::TooLong
            } else if ends_in_target(bytes) {
                HeadState::More
            } else {
                HeadState::Bad
            }
        }
    }
}

/// The parts that stand at these spans.
pub(crate) fn show<'a, 's>(
    bytes: &'a [u8],
    fields: &'s [FieldSpan],
    located: &HeadState<RequestSpans>,
) -> HeadState<RequestHead<'a, 's>>
    requires { IfWhole located.now (AreRequestSpans bytes.now fields.now) }
    ensures { state_of shown_request result ≡ state_of (spanned_request bytes.now fields.now) located.now }
{
    match located {
        HeadState::Whole(head) => HeadState::Whole(RequestHead {
            method: head.method.of(bytes),
            target: head.path.of(bytes),
            minor: head.version,
            fields: Fields::new(bytes, &fields[..head.headers]),
            length: head.len,
        }),
        HeadState::TooLong => HeadState::TooLong,
        HeadState::Bad => HeadState::Bad,
        HeadState::More => HeadState::More,
    }
}
