// The interim answer: "the server MUST NOT wait for the request body before sending the 100 (Continue)
// response" (RFC 2616, section 8.2.3).
ghost use Rattle.std.specs.Prelude.{◌≡◌, ◌≤◌, ◌-◌, drop};
ghost use Rattle.pp_client.specs.Replies.{continue_text, interim_left, is_unasked};

use pp_reply::CONTINUE;

/// The interim answer to the current request.
///
/// ```text
/// Unasked -> Left      the client waits for it     [interim]
/// Left    -> Unasked   the next request stands     [took]
/// ```
#[derive(Clone, Copy, Debug, PartialEq, Eq)]
pub(crate) enum Interim {
    /// It is not given, or not yet.
    Unasked,
    /// So many of its bytes are left to be said, or none.
    Left(usize),
}

impl Interim {
    /// Whether it is not given, or not yet.
    pub(crate) fn is_unasked(self) -> bool
        ensures { result ≡ is_unasked self }
    {
        matches!(self, Interim::Unasked)
    }

    /// How many bytes are left to be said.
    pub(crate) fn left(self) -> usize
        ensures { result ≡ interim_left self }
    {
        match self {
            Interim::Unasked => 0,
            Interim::Left(n) => n,
        }
    }
}

/// So many bytes at the end of the interim answer.
pub(crate) fn last_of_continue<'a>(left: usize) -> &'a [u8]
    requires { left ≤ 25 }
    ensures { result.now ≡ drop (25 - left) continue_text }
{
    &CONTINUE[CONTINUE.len() - left..]
}
