// The head at the front of what came.
ghost use Rattle.std.specs.Prelude.{◌≡◌, length};
ghost use Rattle.pp_head.specs.Response.{response_at};
ghost use Rattle.pp_head.specs.Shown.{shown_response};
ghost use Rattle.pp_pipe.specs.Front.{is_interim as interim};
ghost use Rattle.pp_pipe.specs.Looks.{IsFound, found_in, found_of};

use crate::fate::{Fate, fate_of};
use pp_framing::{BodyRule, rule};
use pp_head::{HeadState, ResponseHead, Scratch, read_response};

/// 101 Switching Protocols: what follows it is no HTTP.
const SWITCHING: u16 = 101;

/// What the bytes that came begin with.
#[derive(Clone, Copy, Debug, PartialEq, Eq)]
pub(crate) enum Found {
    /// No whole head yet.
    More,
    /// No response that is read.
    Other,
    /// A head of so many bytes, before that of the response (RFC 2616, section 10.1).
    Interim(usize),
    /// A head of so many bytes, the rule of the body behind it, and what becomes of the connection.
    Final(usize, BodyRule, Fate),
}

/// Reads the head at the front, of a response to HEAD or to another method.
pub(crate) fn look(bytes: &[u8], scratch: &mut Scratch, head_request: bool) -> Found
    ensures found { result ≡ found_of head_request (response_at bytes.now) }
    ensures within { IsFound (length bytes.now) result }
{
    match read_response(bytes, scratch) {
        HeadState::More => Found::More,
        HeadState::TooLong | HeadState::Bad => Found::Other,
        HeadState::Whole(head) => judge(&head, head_request),
    }
}

fn judge(head: &ResponseHead<'_, '_>, head_request: bool) -> Found
    ensures { result ≡ found_in head_request (shown_response head.now) }
{
    if is_interim(head.status) {
        return Found::Interim(head.length);
    }
    if head.status == SWITCHING {
        return Found::Other;
    }
    match rule(head_request, head.status, &head.fields) {
        Err(_) => Found::Other,
        Ok(rule) => Found::Final(head.length, rule, fate_of(head)),
    }
}

fn is_interim(status: u16) -> bool
    ensures { result ≡ interim status }
{
    100 <= status && (status < 200 && status != SWITCHING)
}
