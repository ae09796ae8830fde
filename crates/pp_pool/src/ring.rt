// The order of use: all numbers of a pool on one ring, the used ones first, and behind them the free ones.
ghost use Rattle.std.specs.Prelude.{◌≡◌, ◌<◌, ◌≤◌, ◌+◌, ◌++◌, ◌∷◌, ℕ, [], true, false, length, get_or, slice_set, IfOk, IfSome, IfNone, OnSome};
ghost use Rattle.std.specs.List.{filter};
ghost use Rattle.pp_pool.specs.Chunks.{is_in, is_not};

use pp_text::OutOfMemory;
use std::alloc::Global;
use std::marker::Model;

/// The numbers below a size, each used or free. Contracts see the used ones, the least recently used first.
///
/// Each number has a link to the next and one to the previous, and `end` stands at both ends, so that no link
/// is a special case. A number moves by six links.
#[derive(Drop)]
pub(crate) struct Ring {
    next: Vec<u32>,
    previous: Vec<u32>,
    end: u32,
    first_free: u32,
    used: u32,
}

impl Model for Ring {
    ghost use Rattle.pp_pool.specs.Rings.{Line};
    ghost use Rattle.pp_pool.specs.Links.{IsRing, line_of};

    ghost Value = { Line };

    ghost view = { line_of };

    ghost invariant = { IsRing };
}

impl Ring {
    /// So many numbers, all of them free.
    pub(crate) fn new(alloc: Global, size: u32) -> Result<Ring, OutOfMemory>
        requires least { 0 < size }
        requires most { size ≤ 65536 }
        ensures { IfOk result (λ o. o ≡ record { size = size; used = [] }) }
    {
        let mut next = Vec::with_capacity(alloc, size as usize + 1)?;
        let mut previous = Vec::with_capacity(alloc, size as usize + 1)?;
        previous.push_reserved(size);
        for number in 0..size {
            next.push_reserved(number + 1);
            previous.push_reserved(number);
        }
        next.push_reserved(0);
        Ok(Ring {
            next,
            previous,
            end: size,
            first_free: 0,
            used: 0,
        })
    }

    /// How many numbers are used.
    pub(crate) fn used(&self) -> u32
        ensures { result ≡ length self.now.used }
    {
        self.used
    }

    /// The least recently used number.
    pub(crate) fn oldest(&self) -> u32
        ensures { 0 < length self.now.used → result ≡ get_or self.now.used 0 0 }
    {
        self.next[self.end as usize]
    }

    /// The number that was used next after this one.
    pub(crate) fn after(&self, number: u32) -> u32
        requires { number < self.now.size }
        ensures { (i : ℕ) → i + 1 < length self.now.used → number ≡ get_or self.now.used i 0 → result ≡ get_or self.now.used (i + 1) 0 }
    {
        self.next[number as usize]
    }

    /// Makes a free number the most recently used. `None` exactly where none is free.
    pub(crate) fn take(&mut self) -> Option<u32>
        ensures none { IfNone result (length self.old.used ≡ self.old.size) }
        ensures unchanged { IfNone result (self.new ≡ self.old) }
        ensures below { IfSome result (λ n. n < self.old.size) }
        ensures free { IfSome result (λ n. is_in n self.old.used ≡ false) }
        ensures taken { IfSome result (λ n. self.new ≡ record self.old { used = self.old.used ++ n ∷ [] }) }
    {
        if self.used == self.end {
            return None;
        }
        let number = self.first_free;
        self.first_free = self.next[number as usize];
        self.used += 1;
        Some(number)
    }

    /// Makes a used number free: the first that is taken again.
    pub(crate) fn give(&mut self, number: u32)
        requires { is_in number self.old.used ≡ true }
        ensures { self.new ≡ record self.old { used = filter (is_not number) self.old.used } }
    {
        self.touch(number);
        self.first_free = number;
        self.used -= 1;
    }

    /// Makes a used number the most recently used.
    pub(crate) fn touch(&mut self, number: u32)
        requires { is_in number self.old.used ≡ true }
        ensures { self.new ≡ record self.old { used = filter (is_not number) self.old.used ++ number ∷ [] } }
    {
        let before = self.previous[number as usize];
        let behind = self.next[number as usize];
        join(&mut self.next, &mut self.previous, before, behind);
        let last = self.previous[self.first_free as usize];
        join(&mut self.next, &mut self.previous, number, self.first_free);
        join(&mut self.next, &mut self.previous, last, number);
    }
}

/// Sets both links of two numbers that become neighbours.
fn join(next: &mut Vec<u32>, previous: &mut Vec<u32>, number: u32, behind: u32)
    requires number { number < length next.old.items }
    requires behind { behind < length previous.old.items }
    ensures next { next.new.items ≡ slice_set next.old.items number behind }
    ensures previous { previous.new.items ≡ slice_set previous.old.items behind number }
{
    next[number as usize] = behind;
    previous[behind as usize] = number;
}
