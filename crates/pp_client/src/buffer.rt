// Bytes in one piece, which go out at the front.
ghost use Rattle.std.specs.Prelude.{◌≡◌, ◌+◌, ◌≤◌, ◌++◌, [], length, drop, IfOk};
ghost use Rattle.std.specs.Borrow.{sem};
ghost use Rattle.pp_client.specs.Lending.{LendsBytes};

use arrayvec::ArrayVec;
use pp_reply::TEXT_LEN;
use pp_text::OutOfMemory;
use std::alloc::{AllocError, Global};
use std::marker::Model;

/// Up to 20,480 bytes. Contracts see those that were not taken. They are moved only where there is no room
/// behind them.
#[derive(Drop)]
pub(crate) struct Buffer {
    bytes: Box<ArrayVec<u8, TEXT_LEN>>,
    taken: usize,
}

impl Model for Buffer {
    ghost use Rattle.std.specs.Prelude.{ℕ, ◌≤◌, List, length, drop};

    ghost Value = { List ℕ };

    ghost view = { λ b. drop b.taken b.bytes.value.items };

    ghost invariant = { λ b. b.taken ≤ length b.bytes.value.items };
}

impl Buffer {
    /// No bytes, and the memory for all.
    pub(crate) fn new(alloc: Global) -> Result<Buffer, OutOfMemory>
        ensures { IfOk result (λ b. b ≡ []) }
    {
        Ok(Buffer {
            bytes: Box::new(alloc, ArrayVec::new()).map_err(AllocError::from)?,
            taken: 0,
        })
    }

    pub(crate) fn as_slice(&self) -> &[u8]
        ensures { result.now ≡ self.now }
    {
        &self.bytes.as_slice()[self.taken..]
    }

    pub(crate) fn len(&self) -> usize
        ensures { result ≡ length self.now }
    {
        self.bytes.len() - self.taken
    }

    /// Takes the first so many bytes out, or all.
    pub(crate) fn took(&mut self, n: usize)
        ensures { self.new ≡ drop n self.old }
    {
        self.taken = self.bytes.len() - self.len().saturating_sub(n);
    }

    /// Takes all bytes out.
    pub(crate) fn clear(&mut self)
        ensures { self.new ≡ [] }
    {
        self.bytes.clear();
        self.taken = 0;
    }

    /// Puts bytes behind those that are there.
    pub(crate) fn put(&mut self, bytes: &[u8])
        requires { length self.old + length bytes.now ≤ TEXT_LEN }
        ensures { self.new ≡ self.old ++ bytes.now }
    {
        self.taken = make_room(&mut self.bytes, self.taken, bytes.len());
        let _ = self.bytes.try_extend_from_slice(bytes);
    }

    /// Lends the memory, with no bytes in it, to be written.
    pub(crate) fn lend(&mut self) -> &mut ArrayVec<u8, TEXT_LEN>
        ensures empty { result.now.items ≡ [] }
        ensures* writes_back { sem 𝓛 (LendsBytes self.entry result) }
    {
        self.bytes.clear();
        self.taken = 0;
        &mut self.bytes
    }
}

/// Moves the bytes that were not taken to the front, where there is no room for so many behind them.
/// Answers how many taken ones stand before them then.
fn make_room(bytes: &mut ArrayVec<u8, TEXT_LEN>, taken: usize, more: usize) -> usize
    requires within { taken ≤ length bytes.old.items }
    requires room { length bytes.old.items + more ≤ TEXT_LEN + taken }
    ensures same { drop result bytes.new.items ≡ drop taken bytes.old.items }
    ensures within { result ≤ length bytes.new.items }
    ensures room { length bytes.new.items + more ≤ TEXT_LEN }
{
    if TEXT_LEN - bytes.len() >= more {
        return taken;
    }
    drop_front(bytes, taken);
    0
}

/// Takes so many bytes away from the front.
fn drop_front(bytes: &mut ArrayVec<u8, TEXT_LEN>, n: usize)
    requires { n ≤ length bytes.old.items }
    ensures { bytes.new.items ≡ drop n bytes.old.items }
{
    let kept = bytes.len() - n;
    if kept > 0 {
        bytes.as_mut_slice().copy_within(n.., 0);
    }
    bytes.truncate(kept);
}
