// The heads of responses, in pieces.
ghost use Rattle.std.specs.Prelude.{◌≡◌, ◌≤◌, [], ◌++◌, length, Some, IfOk, IfSome, option_map};
ghost use Rattle.pp_head.specs.Limits.{max_bytes};
ghost use Rattle.pp_head.specs.Read.{More, Whole};
ghost use Rattle.pp_head.specs.Response.{Response, response_at};
ghost use Rattle.pp_head.specs.Shown.{shown_response};
ghost use Rattle.pp_pipe.specs.Answers.{IsFoundIn, IsOpening, WasRead, piece};

use crate::fate::Fate;
use crate::front::{Found, look};
use pp_framing::BodyRule;
use pp_head::{HeadState, MAX_BYTES, ResponseHead, Scratch, read_response};
use pp_text::OutOfMemory;
use std::alloc::Global;
use std::marker::Model;

/// What pieces of heads are, those of interim responses read over.
#[derive(Clone, Copy, Debug, PartialEq, Eq)]
pub(crate) enum Opening {
    /// No whole head yet: all bytes are used.
    More,
    /// No response that is read.
    NoResponse,
    /// The head of a response: so many bytes are used, this is the rule of the body behind it, and
    /// this becomes of the connection.
    Response(usize, BodyRule, Fate),
}

/// What came of a head, or a whole one. Contracts see its bytes.
#[derive(Drop)]
pub(crate) struct Heading {
    text: Vec<u8>,
    /// Where the fields are of the head that was read last.
    scratch: Scratch,
}

impl Model for Heading {
    ghost use Rattle.std.specs.Prelude.{ℕ, ◌≤◌, List, length, vec_capacity};
    ghost use Rattle.pp_head.specs.Limits.{max_bytes};

    ghost Value = { List ℕ };

    ghost view = { λ h. h.text.items };

    ghost invariant = { λ h. (length h.text.items ≤ max_bytes) × (max_bytes ≤ vec_capacity h.text) };
}

impl Heading {
    /// Nothing yet, and the room for any head.
    pub(crate) fn new(alloc: Global) -> Result<Heading, OutOfMemory>
        ensures { IfOk result (λ h. h ≡ []) }
    {
        Ok(Heading {
            text: Vec::with_capacity(alloc, MAX_BYTES)?,
            scratch: Scratch::new(),
        })
    }

    pub(crate) fn clear(&mut self)
        ensures { self.new ≡ [] }
    {
        self.text.clear();
    }

    /// The whole head that is kept, read once more.
    pub(crate) fn show<'a, 's>(&'a self, scratch: &'s mut Scratch) -> Option<ResponseHead<'a, 's>>
        ensures whole { (r : Response) → response_at self.now ≡ Whole r → option_map shown_response result ≡ Some r }
        ensures within { IfSome result (λ head. WasRead (shown_response head)) }
    {
        match read_response(&self.text, scratch) {
            HeadState::Whole(head) => Some(head),
            HeadState::TooLong | HeadState::Bad | HeadState::More => None,
        }
    }

    /// Reads on, to the head of a response.
    pub(crate) fn read(&mut self, bytes: &[u8], head_request: bool) -> Opening
        requires { response_at self.old ≡ More }
        ensures { IsOpening head_request self.old bytes.now result self.new }
    {
        let mut used = 0;
        loop {
            match self.read_one(&bytes[used..], head_request) {
                Found::Interim(n) => used += n,
                Found::More => return Opening::More,
                Found::Other => return Opening::NoResponse,
                Found::Final(n, rule, fate) => return Opening::Response(used + n, rule, fate),
            }
        }
    }

    /// Reads on in one head. The lengths that it answers are those behind what was kept.
    fn read_one(&mut self, bytes: &[u8], head_request: bool) -> Found
        requires { response_at self.old ≡ More }
        ensures { IsFoundIn head_request self.old bytes.now result self.new }
    {
        let before = self.text.len();
        self.keep(bytes);
        match look(&self.text, &mut self.scratch, head_request) {
            Found::More => Found::More,
            Found::Other => Found::Other,
            Found::Interim(len) => {
                self.text.clear();
                Found::Interim(len - before)
            }
            Found::Final(len, rule, fate) => {
                self.text.truncate(len);
                Found::Final(len - before, rule, fate)
            }
        }
    }

    /// Keeps as many of the bytes as a head may have.
    fn keep(&mut self, bytes: &[u8])
        ensures kept { self.new ≡ self.old ++ piece self.old bytes.now }
        ensures short { length self.old ≤ max_bytes }
    {
        let taken = bytes.len().min(MAX_BYTES - self.text.len());
        let _ = self.text.extend_from_slice(&bytes[..taken]);
    }
}
