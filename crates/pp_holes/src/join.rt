// Bytes that join an instance: by runs, each of which lies in one chunk.
ghost use Rattle.std.specs.Prelude.{◌≡◌, ◌<◌, ◌≤◌, ◌+◌, ◌-◌, ◌*◌, ◌/◌, ◌%◌, length, None, IfSome, IfNone, IsSome, OnSome, true, false};
ghost use Rattle.pp_holes.specs.Places.{shown, joined};
ghost use Rattle.pp_holes.specs.Adding.{part_of_run, join_run, is_stopped, added, room_at};
ghost use Rattle.pp_holes.specs.Cells.{Agrees, cell_of, filled_of, foreign};
ghost use Rattle.pp_holes.specs.Spans.{Grows, IsRaised, held_in};

use crate::cell::{Cell, filled_in, take_cell};
use pp_pool::Pool;

const CHUNK_LEN: u64 = 4096;

/// What became of added bytes, from the front: so many joined, so many were passed over; and whether a byte
/// needed a new chunk and none was free, where adding stopped.
#[derive(Clone, Copy, Debug, PartialEq, Eq)]
pub struct Added {
    pub joined: u64,
    pub ignored: u64,
    pub need_chunk: bool,
}

/// Adds bytes from an offset on.
pub(crate) fn add_bytes(
    cells: &mut Vec<Option<Cell>>,
    pool: &mut Pool,
    owner: u32,
    at: u64,
    bytes: &[u8],
) -> Added
    requires agrees { Agrees owner cells.old.items pool.old.used }
    requires inside { at + length bytes.now ≤ 4096 * length cells.old.items }
    requires small { at + length bytes.now ≤ 1073741824 }
    ensures agrees { Agrees owner cells.new.items pool.new.used }
    ensures count { length cells.new.items ≡ length cells.old.items }
    ensures size { pool.new.size ≡ pool.old.size }
    ensures others { foreign owner pool.new.used ≡ foreign owner pool.old.used }
    ensures chunks { shown pool.new.used ≡ (added pool.old.size owner at bytes.now (shown pool.old.used)).chunks }
    ensures joined { result.joined ≡ (added pool.old.size owner at bytes.now (shown pool.old.used)).joined }
    ensures ignored { result.ignored ≡ (added pool.old.size owner at bytes.now (shown pool.old.used)).ignored }
    ensures need_chunk { result.need_chunk ≡ (added pool.old.size owner at bytes.now (shown pool.old.used)).need_chunk }
    ensures grows { Grows cells.old.items cells.new.items (at + length bytes.now) }
    ensures held { held_in cells.new.items ≡ held_in cells.old.items + result.joined }
{
    let mut joined = 0u64;
    let mut ignored = 0u64;
    let mut from = at;
    let mut rest = bytes;
    while !rest.is_empty() {
        let room = (CHUNK_LEN - from % CHUNK_LEN) as usize;
        let (run, behind) = rest.split_at(room.min(rest.len()));
        let Some(count) = join(cells, pool, owner, from, run) else {
            return Added {
                joined,
                ignored,
                need_chunk: true,
            };
        };
        joined += count as u64;
        ignored += (run.len() - count) as u64;
        from += run.len() as u64;
        rest = behind;
    }
    Added {
        joined,
        ignored,
        need_chunk: false,
    }
}

/// A run inside one chunk: how many of its bytes join; `None` where it needs a chunk and none is free.
fn join(
    cells: &mut Vec<Option<Cell>>,
    pool: &mut Pool,
    owner: u32,
    at: u64,
    run: &[u8],
) -> Option<usize>
    requires agrees { Agrees owner cells.old.items pool.old.used }
    requires inside { at / 4096 < length cells.old.items }
    requires small { at ≤ 1073741824 }
    requires fits { at % 4096 + length run.now ≤ 4096 }
    requires some { 0 < length run.now }
    ensures agrees { Agrees owner cells.new.items pool.new.used }
    ensures length { length cells.new.items ≡ length cells.old.items }
    ensures size { pool.new.size ≡ pool.old.size }
    ensures others { foreign owner pool.new.used ≡ foreign owner pool.old.used }
    ensures joined { OnSome result (shown pool.new.used ≡ join_run owner (at, run.now) (shown pool.old.used)) }
    ensures count { IfSome result (λ n. n ≡ length (part_of_run owner (at, run.now) (shown pool.old.used))) }
    ensures bound { IfSome result (λ n. n ≤ length run.now) }
    ensures goes { OnSome result (is_stopped pool.old.size owner (at, run.now) (shown pool.old.used) ≡ false) }
    ensures stops { IfNone result (is_stopped pool.old.size owner (at, run.now) (shown pool.old.used) ≡ true) }
    ensures unchanged { IfNone result (pool.new ≡ pool.old) }
    ensures grows { Grows cells.old.items cells.new.items (at + length run.now) }
    ensures held { IfSome result (λ n. held_in cells.new.items ≡ held_in cells.old.items + n) }
    ensures same { IfNone result (held_in cells.new.items ≡ held_in cells.old.items) }
{
    let index = (at / CHUNK_LEN) as usize;
    let front = (at % CHUNK_LEN) as usize;
    let filled = filled_in(cells, index) as usize;
    if filled < front {
        return Some(0);
    }
    let known = filled - front;
    if run.len() <= known {
        return Some(0);
    }
    if filled == 0 {
        if begin(cells, pool, owner, index as u32, run) {
            Some(run.len())
        } else {
            None
        }
    } else {
        extend(cells, pool, owner, index as u32, &run[known..]);
        Some(run.len() - known)
    }
}

/// Bytes at the front of a chunk that is not in memory; false exactly where the pool has no free chunk.
fn begin(cells: &mut Vec<Option<Cell>>, pool: &mut Pool, owner: u32, index: u32, run: &[u8]) -> bool
    requires agrees { Agrees owner cells.old.items pool.old.used }
    requires inside { index < length cells.old.items }
    requires absent { cell_of cells.old.items index ≡ None }
    requires some { 0 < length run.now }
    requires fits { length run.now ≤ 4096 }
    ensures agrees { Agrees owner cells.new.items pool.new.used }
    ensures length { length cells.new.items ≡ length cells.old.items }
    ensures size { pool.new.size ≡ pool.old.size }
    ensures others { foreign owner pool.new.used ≡ foreign owner pool.old.used }
    ensures joined { result ≡ true → shown pool.new.used ≡ joined (owner, index) run.now (shown pool.old.used) }
    ensures room { result ≡ true → length pool.old.used < pool.old.size }
    ensures full { result ≡ false → length pool.old.used ≡ pool.old.size }
    ensures unchanged { result ≡ false → pool.new ≡ pool.old }
    ensures raised { result ≡ true → IsRaised cells.old.items cells.new.items index (length run.now) }
    ensures same { result ≡ false → cells.new.items ≡ cells.old.items }
{
    let Some(chunk) = pool.take(owner, index) else {
        return false;
    };
    pool.fill(&chunk, run);
    cells[index as usize] = Some(Cell {
        chunk,
        filled: run.len() as u16,
    });
    true
}

/// Bytes behind the front of a chunk that is in memory.
fn extend(cells: &mut Vec<Option<Cell>>, pool: &mut Pool, owner: u32, index: u32, fresh: &[u8])
    requires agrees { Agrees owner cells.old.items pool.old.used }
    requires present { IsSome (cell_of cells.old.items index) }
    requires fits { filled_of (cell_of cells.old.items index) + length fresh.now ≤ 4096 }
    ensures agrees { Agrees owner cells.new.items pool.new.used }
    ensures length { length cells.new.items ≡ length cells.old.items }
    ensures size { pool.new.size ≡ pool.old.size }
    ensures others { foreign owner pool.new.used ≡ foreign owner pool.old.used }
    ensures joined { shown pool.new.used ≡ joined (owner, index) fresh.now (shown pool.old.used) }
    ensures raised { IsRaised cells.old.items cells.new.items index (filled_of (cell_of cells.old.items index) + length fresh.now) }
{
    let Some(cell) = take_cell(cells, index as usize) else {
        return;
    };
    let Cell { chunk, filled } = cell;
    pool.fill(&chunk, fresh);
    pool.touch(&chunk);
    cells[index as usize] = Some(Cell {
        chunk,
        filled: filled + fresh.len() as u16,
    });
}
