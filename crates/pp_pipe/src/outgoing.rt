// The bytes that are to be written.
ghost use Rattle.std.specs.Prelude.{◌≡◌, ◌+◌, ◌≤◌, [], ◌++◌, length, drop, vec_capacity, IfOk};
ghost use Rattle.pp_pipe.specs.Asks.{out_room};
ghost use Rattle.pp_pipe.specs.Line.{without_span};

use pp_text::OutOfMemory;
use std::alloc::Global;
use std::marker::Model;

/// Bytes that may wait to be written.
pub const OUT_ROOM: usize = 131_072;

/// The bytes that are to be written, in one block.
///
/// What was taken stays in front until the block is full or empty, so that taking moves nothing.
#[derive(Drop)]
pub(crate) struct Outgoing {
    bytes: Vec<u8>,
    /// So many of them were taken.
    front: usize,
}

impl Model for Outgoing {
    ghost use Rattle.std.specs.Prelude.{ℕ, ◌≤◌, List, length, drop, vec_capacity};
    ghost use Rattle.pp_pipe.specs.Asks.{out_room};

    ghost Value = { List ℕ };

    ghost view = { λ o. drop o.front o.bytes.items };

    ghost invariant = { λ o. (o.front ≤ length o.bytes.items) × (length o.bytes.items ≤ out_room) × (out_room ≤ vec_capacity o.bytes) };
}

impl Outgoing {
    pub(crate) fn new(alloc: Global) -> Result<Outgoing, OutOfMemory>
        ensures { IfOk result (λ o. o ≡ []) }
    {
        Ok(Outgoing {
            bytes: Vec::with_capacity(alloc, OUT_ROOM)?,
            front: 0,
        })
    }

    pub(crate) fn clear(&mut self)
        ensures { self.new ≡ [] }
    {
        self.bytes.clear();
        self.front = 0;
    }

    pub(crate) fn as_slice(&self) -> &[u8]
        ensures value { result.now ≡ self.now }
        ensures few { length self.now ≤ out_room }
    {
        &self.bytes[self.front..]
    }

    /// Puts bytes behind the others.
    pub(crate) fn push(&mut self, bytes: &[u8])
        requires { length self.old + length bytes.now ≤ out_room }
        ensures { self.new ≡ self.old ++ bytes.now }
    {
        if bytes.len() > OUT_ROOM - self.bytes.len() {
            remove_span(&mut self.bytes, 0, self.front);
            self.front = 0;
        }
        let _ = self.bytes.extend_from_slice(bytes);
    }

    /// The first so many were written.
    pub(crate) fn take(&mut self, n: usize)
        requires { n ≤ length self.old }
        ensures { self.new ≡ drop n self.old }
    {
        self.front += n;
        if self.front == self.bytes.len() {
            self.clear();
        }
    }

    /// Takes those between two offsets out.
    pub(crate) fn cut(&mut self, from: usize, to: usize)
        requires order { from ≤ to }
        requires within { to ≤ length self.old }
        ensures { self.new ≡ without_span from to self.old }
    {
        remove_span(&mut self.bytes, self.front + from, self.front + to);
    }
}

/// Takes the bytes between two offsets out.
fn remove_span(bytes: &mut Vec<u8>, from: usize, to: usize)
    requires order { from ≤ to }
    requires within { to ≤ length bytes.old.items }
    ensures items { bytes.new.items ≡ without_span from to bytes.old.items }
    ensures capacity { vec_capacity bytes.new ≡ vec_capacity bytes.old }
{
    let kept = bytes.len() - (to - from);
    bytes.copy_within(to.., from);
    bytes.truncate(kept);
}
