// A request's head that was read, kept as the places of its parts.
ghost use Rattle.std.specs.Prelude.{◌≡◌, [], take};
ghost use Rattle.pp_head.specs.Agreement.{IsRequestExact, IsRequestWithin};
ghost use Rattle.pp_head.specs.Kept.{Shows};
ghost use Rattle.pp_head.specs.Read.{IsCutAt, Stays};
ghost use Rattle.pp_head.specs.Request.{request_at};
ghost use Rattle.pp_head.specs.Shown.{state_of, IfWhole, shown_request};

use crate::request::{RequestHead, locate, show};
use crate::scratch::Scratch;
use crate::state::HeadState;
use httparse::spans::RequestSpans;

/// What was read of a request at the front of some bytes. It borrows none of them: who keeps both sees the
/// head again without a second reading.
#[derive(Drop)]
pub struct KeptHead {
    scratch: Scratch,
    located: HeadState<RequestSpans>,
}

impl KeptHead {
    /// What is read of no bytes.
    pub fn new() -> KeptHead
        ensures { Shows result [] }
    {
        KeptHead {
            scratch: Scratch::new(),
            located: HeadState::More,
        }
    }

    /// Forgets what was read: what is kept is that of no bytes.
    pub fn clear(&mut self)
        ensures { Shows self.new [] }
    {
        self.located = HeadState::More;
    }

    /// Reads the request at the front of these bytes, in place of what was kept.
    pub fn read(&mut self, bytes: &[u8])
        ensures { Shows self.new bytes.now }
    {
        self.located = locate(bytes, &mut self.scratch);
    }

    /// The request at the front of the bytes that were read, or why there is none.
    pub fn show<'a, 's>(&'s self, bytes: &'a [u8]) -> HeadState<RequestHead<'a, 's>>
        requires { Shows self.now bytes.now }
        ensures value { state_of shown_request result ≡ request_at bytes.now }
        ensures within { IfWhole result (λ head. IsRequestWithin bytes.now (shown_request head)) }
        ensures cut { IfWhole result (λ head. IsCutAt request_at bytes.now head.length (shown_request head)) }

        // A whole head is shown over its own bytes as well.
        ensures alone { IfWhole result (λ head. Shows self.now (take head.length bytes.now)) }

        // Of `request_at`: it is the grammar's answer, and more bytes leave it.
        ensures exact { IsRequestExact bytes.now }
        ensures stays { Stays request_at bytes.now (request_at bytes.now) }
    {
        show(bytes, &self.scratch.fields, &self.located)
    }
}
