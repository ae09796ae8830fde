// The chunks of one instance.
ghost use Rattle.std.specs.Prelude.{ℕ, ◌≡◌, ◌<◌, ◌≤◌, ◌+◌, ◌/◌, ◌%◌, ◌↔◌, [], length, None, IfOk, false, drop, slice_set};
ghost use Rattle.pp_holes.specs.Places.{shown, bytes_at, without, touched};
ghost use Rattle.pp_holes.specs.Adding.{added};
ghost use Rattle.pp_holes.specs.Cells.{Agrees, empty_table, cell_of, filled_of, is_in_memory, foreign};
ghost use Rattle.pp_holes.specs.Holes.{IsFirstHole};
ghost use Rattle.pp_holes.specs.Spans.{EndsWithin, held_in};

use crate::cell::{Cell, cell_in, filled_in, take_cell};
use crate::hole::{first_missing, held_from, missing_from};
use crate::join::{Added, add_bytes};
use pp_pool::Pool;
use pp_text::OutOfMemory;
use std::alloc::Global;
use std::marker::Model;

const CHUNK_LEN: u64 = 4096;

/// What is in memory of one instance. Contracts see its owner, its length, and for each chunk its number in
/// the pool and its filled length.
#[derive(Drop)]
pub struct Cells {
    owner: u32,
    total: u64,
    cells: Vec<Option<Cell>>,
    /// How many offsets are in memory.
    held: u64,
    /// The length of the leading run in memory.
    lead: u64,
    /// From here on nothing is in memory.
    reach: u64,
}

impl Model for Cells {
    ghost use Rattle.std.specs.Prelude.{◌≤◌, ◌≡◌, length};
    ghost use Rattle.pp_holes.specs.Cells.{Table, chunks_of};
    ghost use Rattle.pp_holes.specs.Spans.{AreKnown};

    ghost Value = { Table };

    ghost view = { λ c. record { owner = c.owner; total = c.total; cells = c.cells.items } };

    ghost invariant = { λ c. (c.total ≤ 1073741824) × (length c.cells.items ≡ chunks_of c.total) × AreKnown c.cells.items c.total c.held c.lead c.reach };
}

impl Cells {
    /// The cells of an instance of so many bytes, none of them in memory. Its chunks will have this owner.
    pub fn new(alloc: Global, owner: u32, length: u64) -> Result<Cells, OutOfMemory>
        requires { length ≤ 1073741824 }
        ensures { IfOk result (λ c. c ≡ empty_table owner length) }
    {
        let count = length.div_ceil(CHUNK_LEN);
        let mut cells = Vec::with_capacity(alloc, count as usize)?;
        for _index in 0..count {
            cells.push_reserved(None);
        }
        Ok(Cells {
            owner,
            total: length,
            cells,
            held: 0,
            lead: 0,
            reach: 0,
        })
    }

    /// Adds bytes from an offset on. A byte joins where its offset is not in memory, and begins a chunk or
    /// follows an offset in memory; the others are passed over.
    pub fn add(&mut self, pool: &mut Pool, at: u64, bytes: &[u8]) -> Added
        requires agrees { Agrees self.old.owner self.old.cells pool.old.used }
        requires within { at + length bytes.now ≤ self.old.total }
        ensures agrees { Agrees self.new.owner self.new.cells pool.new.used }
        ensures owner { self.new.owner ≡ self.old.owner }
        ensures total { self.new.total ≡ self.old.total }
        ensures size { pool.new.size ≡ pool.old.size }
        ensures others { foreign self.old.owner pool.new.used ≡ foreign self.old.owner pool.old.used }
        ensures chunks { shown pool.new.used ≡ (added pool.old.size self.old.owner at bytes.now (shown pool.old.used)).chunks }
        ensures joined { result.joined ≡ (added pool.old.size self.old.owner at bytes.now (shown pool.old.used)).joined }
        ensures ignored { result.ignored ≡ (added pool.old.size self.old.owner at bytes.now (shown pool.old.used)).ignored }
        ensures need_chunk { result.need_chunk ≡ (added pool.old.size self.old.owner at bytes.now (shown pool.old.used)).need_chunk }
        ensures ends { EndsWithin self.new.cells self.new.total }
    {
        let added = add_bytes(&mut self.cells, pool, self.owner, at, bytes);
        self.held += added.joined;
        self.lead = first_missing(&self.cells, self.total, self.lead);
        self.reach = self.reach.max(at + bytes.len() as u64);
        added
    }

    /// The bytes from `at` to the end of what its chunk holds, lent from the pool. Empty exactly where `at`
    /// is not in memory.
    pub fn piece<'p>(&self, pool: &'p Pool, at: u64) -> &'p [u8]
        requires { Agrees self.now.owner self.now.cells pool.now.used }
        ensures piece { result.now ≡ drop (at % 4096) (bytes_at (self.now.owner, at / 4096) (shown pool.now.used)) }
        ensures empty { (result.now ≡ []) ↔ (is_in_memory self.now.cells at ≡ false) }
    {
        let front = (at % CHUNK_LEN) as usize;
        match cell_in(&self.cells, (at / CHUNK_LEN) as usize) {
            None => &[],
            Some(cell) => {
                let bytes = pool.bytes(&cell.chunk);
                if front < bytes.len() {
                    &bytes[front..]
                } else {
                    &[]
                }
            }
        }
    }

    /// The first span from `at` on that is not in memory, half-open, up to the next chunk that holds a byte.
    /// Where there is none it is empty and stands at the length.
    pub fn next_hole(&self, at: u64) -> (u64, u64)
        ensures { IsFirstHole self.now at result }
    {
        if self.total <= at {
            return (self.total, self.total);
        }
        let from = missing_from(&self.cells, self.total, self.lead, at);
        let to = held_from(&self.cells, self.total, self.reach, from);
        (from, to)
    }

    /// Gives the chunk of this index back to the pool. Nothing changes where it is not in memory.
    pub fn drop_chunk(&mut self, pool: &mut Pool, index: u32)
        requires agrees { Agrees self.old.owner self.old.cells pool.old.used }
        ensures agrees { Agrees self.new.owner self.new.cells pool.new.used }
        ensures owner { self.new.owner ≡ self.old.owner }
        ensures total { self.new.total ≡ self.old.total }
        ensures size { pool.new.size ≡ pool.old.size }
        ensures others { foreign self.old.owner pool.new.used ≡ foreign self.old.owner pool.old.used }
        ensures dropped { shown pool.new.used ≡ without (self.old.owner, index) (shown pool.old.used) }
        ensures ends { EndsWithin self.new.cells self.new.total }
    {
        self.held -= u64::from(filled_in(&self.cells, index as usize));
        give_at(&mut self.cells, pool, self.owner, index);
        self.lead = self.lead.min(u64::from(index) * CHUNK_LEN);
        self.lead = first_missing(&self.cells, self.total, self.lead);
    }

    /// Gives all chunks back to the pool.
    pub fn drop_all(&mut self, pool: &mut Pool)
        requires agrees { Agrees self.old.owner self.old.cells pool.old.used }
        ensures agrees { Agrees self.new.owner self.new.cells pool.new.used }
        ensures owner { self.new.owner ≡ self.old.owner }
        ensures total { self.new.total ≡ self.old.total }
        ensures size { pool.new.size ≡ pool.old.size }
        ensures dropped { pool.new.used ≡ foreign self.old.owner pool.old.used }
    {
        give_all(&mut self.cells, pool, self.owner, self.held);
        self.held = 0;
        self.lead = 0;
        self.reach = 0;
    }

    /// Makes a chunk the most recently used.
    pub fn touch(&self, pool: &mut Pool, index: u32)
        requires agrees { Agrees self.now.owner self.now.cells pool.old.used }
        requires in_memory { 0 < filled_of (cell_of self.now.cells index) }
        ensures agrees { Agrees self.now.owner self.now.cells pool.new.used }
        ensures size { pool.new.size ≡ pool.old.size }
        ensures others { foreign self.now.owner pool.new.used ≡ foreign self.now.owner pool.old.used }
        ensures touched { shown pool.new.used ≡ touched (self.now.owner, index) (shown pool.old.used) }
    {
        touch_at(&self.cells, pool, self.owner, index);
    }
}

fn touch_at(cells: &[Option<Cell>], pool: &mut Pool, owner: u32, index: u32)
    requires agrees { Agrees owner cells.now pool.old.used }
    requires in_memory { 0 < filled_of (cell_of cells.now index) }
    ensures agrees { Agrees owner cells.now pool.new.used }
    ensures size { pool.new.size ≡ pool.old.size }
    ensures others { foreign owner pool.new.used ≡ foreign owner pool.old.used }
    ensures touched { shown pool.new.used ≡ touched (owner, index) (shown pool.old.used) }
{
    if let Some(cell) = cell_in(cells, index as usize) {
        pool.touch(&cell.chunk);
    }
}

fn give_at(cells: &mut Vec<Option<Cell>>, pool: &mut Pool, owner: u32, index: u32)
    requires agrees { Agrees owner cells.old.items pool.old.used }
    ensures agrees { Agrees owner cells.new.items pool.new.used }
    ensures items { cells.new.items ≡ slice_set cells.old.items index None }
    ensures size { pool.new.size ≡ pool.old.size }
    ensures others { foreign owner pool.new.used ≡ foreign owner pool.old.used }
    ensures dropped { shown pool.new.used ≡ without (owner, index) (shown pool.old.used) }
{
    let Some(cell) = take_cell(cells, index as usize) else {
        return;
    };
    let Cell { chunk, filled: _ } = cell;
    pool.give(chunk);
}

/// Gives all chunks back, where so many offsets are in memory: no cell is looked at where none is.
fn give_all(cells: &mut Vec<Option<Cell>>, pool: &mut Pool, owner: u32, held: u64)
    requires agrees { Agrees owner cells.old.items pool.old.used }
    requires held { held ≡ held_in cells.old.items }
    requires few { length cells.old.items ≤ 262144 }
    ensures agrees { Agrees owner cells.new.items pool.new.used }
    ensures count { length cells.new.items ≡ length cells.old.items }
    ensures size { pool.new.size ≡ pool.old.size }
    ensures dropped { pool.new.used ≡ foreign owner pool.old.used }
    ensures gone { (i : ℕ) → cell_of cells.new.items i ≡ None }
{
    if held == 0 {
        return;
    }
    for index in 0..cells.len() {
        give_at(cells, pool, owner, index as u32);
    }
}
