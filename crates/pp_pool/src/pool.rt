// A pool: one block of bytes, a slot for each chunk, and the numbers of the used ones in the order of their last use.
ghost use Rattle.std.specs.Prelude.{◌≡◌, ◌<◌, ◌≤◌, ◌+◌, ◌↔◌, [], length, map, IfOk, IfSome, IfNone, OnSome, IsNone, true, false, option_map, ◌==◌, ◌&&◌, take, vec_capacity};
ghost use Rattle.std.specs.List.{filter, list_any, list_all};
ghost use Rattle.pp_pool.specs.Chunks.{IsUsed, AreDistinct, numbers, is_in, is_not, bytes_in, taken, given, filled, used_last, is_pinned, oldest_in, place_of};

use crate::chunk::ChunkId;
use crate::ring::Ring;
use arrayvec::ArrayVec;
use pp_text::OutOfMemory;
use std::alloc::Global;
use std::marker::Model;

/// The bytes of a chunk.
pub const CHUNK_LEN: usize = 4096;

/// Places that may not be evicted: pairs of owner and index.
pub type Pins = ArrayVec<(u32, u32), 320>;

/// Whose chunk it is, which part, and how many of its bytes are filled.
#[derive(Clone, Copy)]
struct Slot {
    owner: u32,
    index: u32,
    filled: u16,
}

const FREE: Slot = Slot {
    owner: 0,
    index: 0,
    filled: 0,
};

/// Chunks of 4,096 bytes, and the order in which they were used.
#[derive(Drop)]
pub struct Pool {
    /// The bytes of the chunks by their numbers, as far as one was ever taken: no page of what was never used
    /// is touched.
    block: Vec<u8>,
    slots: Vec<Slot>,
    order: Ring,
}

impl Model for Pool {
    ghost use Rattle.pp_pool.specs.Chunks.{Chunks};

    ghost Value = { Chunks };

    ghost use Rattle.pp_pool.specs.Slots.{chunks_of, IsSound};

    ghost view = { chunks_of };

    ghost invariant = { IsSound };
}

impl Pool {
    /// A pool of so many chunks, none of them used. Takes all memory that the pool ever has.
    pub fn new(alloc: Global, chunks: u32) -> Result<Pool, OutOfMemory>
        requires least { 512 ≤ chunks }
        requires most { chunks ≤ 65536 }
        ensures { IfOk result (λ p. p ≡ record { size = chunks; used = [] }) }
    {
        let block = Vec::with_capacity(alloc, chunks as usize * CHUNK_LEN)?;
        let mut slots = Vec::with_capacity(alloc, chunks as usize)?;
        for _number in 0..chunks {
            slots.push_reserved(FREE);
        }
        let order = Ring::new(alloc, chunks)?;
        Ok(Pool {
            block,
            slots,
            order,
        })
    }

    /// How many chunks are used.
    pub fn used(&self) -> u32
        ensures used { result ≡ length self.now.used }
        ensures within { length self.now.used ≤ self.now.size }
        ensures distinct { AreDistinct (numbers self.now.used) }
    {
        self.order.used()
    }

    /// Takes a free chunk for a place, as the most recently used, with no bytes. `None` exactly where no
    /// chunk is free.
    pub fn take(&mut self, owner: u32, index: u32) -> Option<ChunkId>
        ensures none { IfNone result (length self.old.used ≡ self.old.size) }
        ensures unchanged { IfNone result (self.new ≡ self.old) }
        ensures room { OnSome result (length self.old.used < self.old.size) }
        ensures is_new { IfSome result (λ c. is_in c (numbers self.old.used) ≡ false) }
        ensures taken { IfSome result (λ c. self.new ≡ record self.old { used = taken c owner index self.old.used }) }
        ensures distinct { AreDistinct (numbers self.new.used) }
    {
        let number = self.order.take()?;
        reach(&mut self.block, (number as usize + 1) * CHUNK_LEN);
        self.slots[number as usize] = Slot {
            owner,
            index,
            filled: 0,
        };
        Some(ChunkId { number })
    }

    /// Gives a chunk back: it is free again.
    pub fn give(&mut self, chunk: ChunkId)
        requires { IsUsed chunk self.old }
        ensures given { self.new ≡ record self.old { used = given chunk self.old.used } }
        ensures distinct { AreDistinct (numbers self.new.used) }
    {
        let ChunkId { number } = chunk;
        self.order.give(number);
    }

    /// The front of a chunk that is filled.
    pub fn bytes(&self, chunk: &ChunkId) -> &[u8]
        requires { IsUsed chunk.now self.now }
        ensures { result.now ≡ bytes_in chunk.now self.now.used }
    {
        let number = chunk.number as usize;
        let start = number * CHUNK_LEN;
        let filled = self.slots[number].filled as usize;
        &self.block[start..start + filled]
    }

    /// Puts bytes behind those of a chunk. This alone is no use of it.
    pub fn fill(&mut self, chunk: &ChunkId, bytes: &[u8])
        requires used { IsUsed chunk.now self.old }
        requires fits { length (bytes_in chunk.now self.old.used) + length bytes.now ≤ 4096 }
        ensures filled { self.new ≡ record self.old { used = filled chunk.now bytes.now self.old.used } }
        ensures distinct { AreDistinct (numbers self.new.used) }
    {
        let number = chunk.number as usize;
        let filled = self.slots[number].filled;
        let start = number * CHUNK_LEN + filled as usize;
        let free = &mut self.block[start..start + bytes.len()];
        free.copy_from_slice(bytes);
        self.slots[number].filled = filled + bytes.len() as u16;
    }

    /// Makes a chunk the most recently used.
    pub fn touch(&mut self, chunk: &ChunkId)
        requires { IsUsed chunk.now self.old }
        ensures touched { self.new ≡ record self.old { used = used_last chunk.now self.old.used } }
        ensures distinct { AreDistinct (numbers self.new.used) }
    {
        self.order.touch(chunk.number);
    }

    /// Owner and index of the least recently used chunk that is not pinned. `None` exactly where every used
    /// chunk is pinned.
    pub fn oldest(&self, pins: &Pins) -> Option<(u32, u32)>
        ensures oldest { result ≡ option_map place_of (oldest_in pins.now.items self.now.used) }
        ensures none { IsNone result ↔ (list_all (is_pinned pins.now.items) self.now.used ≡ true) }
    {
        let mut number = self.order.oldest();
        for _passed in 0..self.order.used() {
            let slot = &self.slots[number as usize];
            if !is_pinned_at(pins, slot.owner, slot.index) {
                return Some((slot.owner, slot.index));
            }
            number = self.order.after(number);
        }
        None
    }
}

fn is_pinned_at(pins: &Pins, owner: u32, index: u32) -> bool
    ensures { result ≡ list_any (λ p. (owner == p.0) && (index == p.1)) pins.now.items }
{
    pins.iter().any(|pin| owner == pin.0 && index == pin.1)
}

/// Makes the block at least so long. What was there stays.
fn reach(block: &mut Vec<u8>, end: usize)
    requires { end ≤ vec_capacity block.old }
    ensures long { end ≤ length block.new.items }
    ensures kept { take (length block.old.items) block.new.items ≡ block.old.items }
    ensures longer { length block.old.items ≤ length block.new.items }
    ensures room { vec_capacity block.old ≤ vec_capacity block.new }
{
    if block.len() < end {
        let _ = block.resize(end, 0);
    }
}
