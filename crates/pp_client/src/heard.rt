// The bytes that were heard: the head of the current request, and what stands behind it.
ghost use Rattle.std.specs.Prelude.{◌≡◌, ◌≤◌, ◌<◌, ◌++◌, ℕ, List, [], length, take, IfOk, IfSome};
ghost use Rattle.pp_head.specs.Kept.{Shows};
ghost use Rattle.pp_head.specs.Request.{request_at};
ghost use Rattle.pp_client.specs.Requests.{IsHead, answered, body_dropped, body_in, body_taken, current_of, heard_in, room_of, silent, split_by};
ghost use Rattle.pp_client.specs.Found.{found_in};
ghost use Rattle.pp_client.specs.Shown.{shown};

use crate::body::Body;
use crate::buffer::Buffer;
use crate::current::{Current, front};
use arrayvec::ArrayVec;
use pp_framing::request_rule;
use pp_head::{HeadState, KeptHead, MAX_BYTES};
use pp_text::OutOfMemory;
use std::alloc::{AllocError, Global};
use std::marker::Model;

/// How many bytes are heard ahead of what was taken.
pub const HEARD_LEN: usize = 16_384;

/// What a client sent and what was not answered yet. A head that is whole is put by itself: so the bytes
/// behind it go out at the front, and none is moved for it.
#[derive(Drop)]
pub(crate) struct Heard {
    // The head of the current request; empty while none is whole.
    head: Box<ArrayVec<u8, MAX_BYTES>>,
    // What was heard behind it.
    rest: Buffer,
    body: Body,
    // What was read of the head, or of what may become one.
    kept: Box<KeptHead>,
}

impl Model for Heard {
    ghost use Rattle.pp_client.specs.Requests.{Heard};

    ghost Value = { Heard };

    ghost use Rattle.pp_client.specs.Inside.{heard_as, IsSound};

    ghost view = { heard_as };

    ghost invariant = { IsSound };
}

impl Heard {
    /// Nothing yet, and the memory for all.
    pub(crate) fn new(alloc: Global) -> Result<Heard, OutOfMemory>
        ensures { IfOk result (λ h. h ≡ silent) }
    {
        Ok(Heard {
            head: Box::new(alloc, ArrayVec::new()).map_err(AllocError::from)?,
            rest: Buffer::new(alloc)?,
            body: Body::Dropped(0),
            kept: Box::new(alloc, KeptHead::new()).map_err(AllocError::from)?,
        })
    }

    /// For how many more bytes there is room.
    pub(crate) fn room(&self) -> usize
        ensures { result ≡ room_of self.now }
    {
        HEARD_LEN - self.rest.len()
    }

    /// More bytes came.
    pub(crate) fn hear(&mut self, bytes: &[u8])
        requires { length bytes.now ≤ room_of self.old }
        ensures heard { self.new ≡ heard_in bytes.now self.old }
        ensures pieces { (more : List ℕ) → heard_in (bytes.now ++ more) self.old ≡ heard_in more self.new }
    {
        let lost = self.body.lost(bytes.len());
        self.rest.put(&bytes[lost..]);
        self.body = self.body.later(bytes.len());
        if self.head.is_empty() {
            self.kept.read(self.rest.as_slice());
            self.split();
        }
    }

    /// What stands at the front.
    pub(crate) fn current(&self) -> Current<'_, '_>
        ensures { shown result ≡ current_of self.now }
    {
        if self.head.is_empty() {
            front(self.rest.as_slice(), &self.kept)
        } else {
            front(self.head.as_slice(), &self.kept)
        }
    }

    /// What is there of the current request's body.
    pub(crate) fn body(&self) -> &[u8]
        ensures { result.now ≡ body_in self.now }
    {
        let len = self.body.here(self.rest.len());
        &self.rest.as_slice()[..len]
    }

    /// The first bytes of it were taken.
    pub(crate) fn body_took(&mut self, n: usize)
        requires { n ≤ length (body_in self.old) }
        ensures taken { self.new ≡ body_taken n self.old }
        ensures current { current_of self.new ≡ current_of self.old }
        ensures next { answered self.new ≡ answered self.old }
        ensures later { (more : List ℕ) → heard_in more self.new ≡ body_taken n (heard_in more self.old) }
    {
        self.rest.took(n);
        self.body = self.body.shortened(n);
    }

    /// Nobody reads the rest of the current request's body.
    pub(crate) fn drop_body(&mut self)
        ensures dropped { self.new ≡ body_dropped self.old }
        ensures current { current_of self.new ≡ current_of self.old }
        ensures next { answered self.new ≡ answered self.old }
        ensures later { (more : List ℕ) → 0 < length self.old.head → heard_in more self.new ≡ body_dropped (heard_in more self.old) }
    {
        let len = self.rest.len();
        self.rest.took(self.body.here(len));
        self.body = self.body.unwanted(len);
    }

    /// The current request was answered.
    pub(crate) fn answer(&mut self)
        ensures { self.new ≡ answered self.old }
    {
        if self.head.is_empty() {
            self.rest.clear();
            self.kept.clear();
            self.body = Body::Over;
        } else {
            self.drop_body();
            self.head.clear();
            self.kept.read(self.rest.as_slice());
            self.split();
        }
    }

    /// The request that was read becomes current, where its head is whole.
    fn split(&mut self)
        requires { self.old.head ≡ [] }
        ensures { self.new ≡ split_by (request_at self.old.rest) self.old }
    {
        let Some(found) = find(self.rest.as_slice(), &self.kept) else {
            return;
        };
        let _ = self
            .head
            .try_extend_from_slice(&self.rest.as_slice()[..found.len]);
        self.rest.took(found.len);
        self.rest.took(found.body.lost(self.rest.len()));
        self.body = found.body;
    }
}

/// A request that was found: the bytes of its head, and its body.
#[derive(Clone, Copy)]
struct Found {
    len: usize,
    body: Body,
}

/// The request at the front of the bytes, of which this was read, if its head is whole.
fn find(bytes: &[u8], kept: &KeptHead) -> Option<Found>
    requires { Shows kept.now bytes.now }
    ensures found { result ≡ found_in (request_at bytes.now) }
    ensures some { IfSome result (λ found. 0 < found.len) }
    ensures within { IfSome result (λ found. found.len ≤ length bytes.now) }
    ensures short { IfSome result (λ found. found.len ≤ MAX_BYTES) }
    ensures head { IfSome result (λ found. IsHead (take found.len bytes.now)) }
    ensures alone { IfSome result (λ found. Shows kept.now (take found.len bytes.now)) }
{
    match kept.show(bytes) {
        HeadState::Whole(head) => Some(Found {
            len: head.length,
            body: Body::of(request_rule(&head.fields)),
        }),
        HeadState::TooLong | HeadState::Bad | HeadState::More => None,
    }
}
