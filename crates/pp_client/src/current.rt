// What stands at the front of what a client sent.
ghost use Rattle.std.specs.Prelude.{◌≡◌};
ghost use Rattle.pp_head.specs.Kept.{Shows};
ghost use Rattle.pp_client.specs.Requests.{fault_of, front_of};
ghost use Rattle.pp_client.specs.Shown.{shown};

use pp_framing::{BodyRule, FramingFault, request_rule};
use pp_head::{HeadState, KeptHead, RequestHead};

/// The current request, or why there is none.
#[derive(Drop)]
pub enum Current<'a, 's> {
    /// Nothing was heard behind the requests that were answered and their bodies.
    Nothing,
    /// What was heard may become the head of a request.
    More,
    /// A request, and the status that it is refused with where its body has no length that can be
    /// told: 411 or 400 (RFC 2616, sections 10.4.12 and 10.4.1).
    Request(RequestHead<'a, 's>, Option<u16>),
    /// No request, whatever follows: it is refused with this status, 431 where a head is too long
    /// (RFC 6585, section 5), else 400.
    Refuse(u16),
}

/// What stands at the front of the bytes, of which this was read.
pub(crate) fn front<'a, 's>(bytes: &'a [u8], kept: &'s KeptHead) -> Current<'a, 's>
    requires { Shows kept.now bytes.now }
    ensures { shown result ≡ front_of bytes.now }
{
    if bytes.is_empty() {
        return Current::Nothing;
    }
    match kept.show(bytes) {
        HeadState::More => Current::More,
        HeadState::TooLong => Current::Refuse(431),
        HeadState::Bad => Current::Refuse(400),
        HeadState::Whole(head) => {
            let fault = status(request_rule(&head.fields));
            Current::Request(head, fault)
        }
    }
}

/// The status of a request whose body is delimited so, where it is refused for that.
fn status(rule: Result<BodyRule, FramingFault>) -> Option<u16>
    ensures { result ≡ fault_of rule }
{
    match rule {
        Ok(_) => None,
        Err(FramingFault::OtherCoding) => Some(411),
        Err(FramingFault::TwoLengths | FramingFault::BadLength) => Some(400),
    }
}
