// The head of a response (RFC 2616, section 6).
ghost use Rattle.std.specs.Prelude.{◌≡◌, length};
ghost use Rattle.pp_head.specs.Agreement.{IsResponseExact, IsResponseWithin};
ghost use Rattle.pp_head.specs.Read.{IsCutAt, Stays};
ghost use Rattle.pp_head.specs.Response.{response_at};
ghost use Rattle.pp_head.specs.Shown.{state_of, IfWhole, shown_response, spanned_response, AreResponseSpans};

use crate::limits::{fits, reaches_limit};
use crate::scratch::{Scratch, write_fields};
use crate::state::HeadState;
use httparse::Status;
use httparse::spans::{ResponseSpans, parse_response};
use pp_text::{FieldSpan, Fields};

/// The parts of a response's head, in the bytes that it was read from.
#[derive(Drop)]
pub struct ResponseHead<'a, 's> {
    /// The minor version: 0 for HTTP/1.0, and 1 for HTTP/1.1.
    pub minor: u8,
    /// The number of the three digits, 0 to 999.
    pub status: u16,
    /// The Reason-Phrase, empty where the line has none.
    pub reason: &'a [u8],
    pub fields: Fields<'a, 's>,
    /// Bytes of the head, from the first empty line before it through the empty line that ends it.
    pub length: usize,
}

/// The response at the front of the bytes, or why there is none.
pub fn read_response<'a, 's>(
    bytes: &'a [u8],
    scratch: &'s mut Scratch,
) -> HeadState<ResponseHead<'a, 's>>
    ensures value { state_of shown_response result ≡ response_at bytes.now }
    ensures within { IfWhole result (λ head. IsResponseWithin bytes.now (shown_response head)) }
    ensures cut { IfWhole result (λ head. IsCutAt response_at bytes.now head.length (shown_response head)) }

    // Of `response_at`: it is the grammar's answer, and more bytes leave it.
    ensures exact { IsResponseExact bytes.now }
    ensures stays { Stays response_at bytes.now (response_at bytes.now) }
{
    let located = locate(bytes, scratch);
    show(bytes, &scratch.fields, located)
}

/// Where the parts of the head are, those of its fields in the scratch.
fn locate(bytes: &[u8], scratch: &mut Scratch) -> HeadState<ResponseSpans>
    ensures value { state_of (spanned_response bytes.now scratch.new.fields) result ≡ response_at bytes.now }
    ensures within { IfWhole result (AreResponseSpans bytes.now scratch.new.fields) }
{
    match parse_response(bytes, &mut scratch.headers) {
        Ok(Status::Complete(head)) => {
            if fits(&bytes[..head.len], head.headers) {
                write_fields(&scratch.headers[..head.headers], &mut scratch.fields);
                HeadState::Whole(head)
            } else {
                HeadState::TooLong
            }
        }
        Ok(Status::Partial) => {
            if reaches_limit(bytes) {
                HeadState::TooLong
            } else {
                HeadState::More
            }
        }
        Err(_) => {
            if reaches_limit(bytes) {
                HeadState::TooLong
            } else {
                HeadState::Bad
            }
        }
    }
}

/// The parts that stand at these spans.
fn show<'a, 's>(
    bytes: &'a [u8],
    fields: &'s [FieldSpan],
    located: HeadState<ResponseSpans>,
) -> HeadState<ResponseHead<'a, 's>>
    requires { IfWhole located (AreResponseSpans bytes.now fields.now) }
    ensures { state_of shown_response result ≡ state_of (spanned_response bytes.now fields.now) located }
{
    match located {
        HeadState::Whole(head) => HeadState::Whole(ResponseHead {
            minor: head.version,
            status: head.code,
            reason: head.reason.of(bytes),
            fields: Fields::new(bytes, &fields[..head.headers]),
            length: head.len,
        }),
        HeadState::TooLong => HeadState::TooLong,
        HeadState::Bad => HeadState::Bad,
        HeadState::More => HeadState::More,
    }
}
