// What is missing of an instance, chunk by chunk.
ghost use Rattle.std.specs.Prelude.{◌≡◌, ◌<◌, ◌≤◌, ℕ, true, false};
ghost use Rattle.pp_holes.specs.Cells.{is_in_memory};

use crate::cell::{Cell, filled_in};

const CHUNK_LEN: u64 = 4096;

/// The first offset from `at` on that is not in memory, or the length; where the leading run is known.
pub(crate) fn missing_from(cells: &[Option<Cell>], total: u64, lead: u64, at: u64) -> u64
    requires small { total ≤ 1073741824 }
    requires within { at ≤ total }
    requires lead { lead ≤ total }
    requires led { (o : ℕ) → o < lead → is_in_memory cells.now o ≡ true }
    requires ends { lead < total → is_in_memory cells.now lead ≡ false }
    ensures behind { at ≤ result }
    ensures within { result ≤ total }
    ensures held { (o : ℕ) → at ≤ o → o < result → is_in_memory cells.now o ≡ true }
    ensures missing { result < total → is_in_memory cells.now result ≡ false }
{
    if at < lead {
        return lead;
    }
    first_missing(cells, total, at)
}

/// The first offset from `at` on that is in memory, or the length; where nothing is in memory from `reach` on.
pub(crate) fn held_from(cells: &[Option<Cell>], total: u64, reach: u64, at: u64) -> u64
    requires small { total ≤ 1073741824 }
    requires within { at ≤ total }
    requires empty { (o : ℕ) → reach ≤ o → is_in_memory cells.now o ≡ false }
    ensures behind { at ≤ result }
    ensures within { result ≤ total }
    ensures missing { (o : ℕ) → at ≤ o → o < result → is_in_memory cells.now o ≡ false }
    ensures held { result < total → is_in_memory cells.now result ≡ true }
{
    if reach <= at {
        return total;
    }
    first_held(cells, total, at)
}

/// The first offset from `at` on that is not in memory, or the length.
pub(crate) fn first_missing(cells: &[Option<Cell>], total: u64, at: u64) -> u64
    requires small { total ≤ 1073741824 }
    requires within { at ≤ total }
    ensures behind { at ≤ result }
    ensures within { result ≤ total }
    ensures held { (o : ℕ) → at ≤ o → o < result → is_in_memory cells.now o ≡ true }
    ensures missing { result < total → is_in_memory cells.now result ≡ false }
{
    let mut from = at;
    while from < total {
        let filled = filled_in(cells, (from / CHUNK_LEN) as usize) as u64;
        if filled <= from % CHUNK_LEN {
            return from;
        }
        let end = from / CHUNK_LEN * CHUNK_LEN + filled.min(CHUNK_LEN);
        from = end.min(total);
    }
    from
}

/// The first offset from `at` on that is in memory, or the length.
fn first_held(cells: &[Option<Cell>], total: u64, at: u64) -> u64
    requires small { total ≤ 1073741824 }
    requires within { at ≤ total }
    ensures behind { at ≤ result }
    ensures within { result ≤ total }
    ensures missing { (o : ℕ) → at ≤ o → o < result → is_in_memory cells.now o ≡ false }
    ensures held { result < total → is_in_memory cells.now result ≡ true }
{
    let mut from = at;
    while from < total {
        let filled = filled_in(cells, (from / CHUNK_LEN) as usize) as u64;
        if from % CHUNK_LEN < filled {
            return from;
        }
        // A chunk holds a front alone, so the rest of this one is missing too.
        let end = (from / CHUNK_LEN + 1) * CHUNK_LEN;
        from = end.min(total);
    }
    from
}
