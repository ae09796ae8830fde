// A chunk that is in memory, and the look-up of cells.
ghost use Rattle.std.specs.Prelude.{◌≡◌, None, option_copied, slice_set};
ghost use Rattle.pp_holes.specs.Cells.{cell_of, filled_of};

use pp_pool::ChunkId;

/// A chunk in memory, and the length of its front that is filled.
#[derive(Drop)]
pub(crate) struct Cell {
    pub(crate) chunk: ChunkId,
    pub(crate) filled: u16,
}

pub(crate) fn cell_in<'c>(cells: &'c [Option<Cell>], index: usize) -> Option<&'c Cell>
    ensures { option_copied result ≡ cell_of cells.now index }
{
    match cells.get(index) {
        Some(Some(cell)) => Some(cell),
        Some(None) => None,
        None => None,
    }
}

/// How much of a chunk is filled, 0 where it is not in memory.
pub(crate) fn filled_in(cells: &[Option<Cell>], index: usize) -> u16
    ensures { result ≡ filled_of (cell_of cells.now index) }
{
    match cells.get(index) {
        Some(Some(cell)) => cell.filled,
        Some(None) => 0,
        None => 0,
    }
}

/// Takes a chunk out of its cell.
pub(crate) fn take_cell(cells: &mut Vec<Option<Cell>>, index: usize) -> Option<Cell>
    ensures value { result ≡ cell_of cells.old.items index }
    ensures items { cells.new.items ≡ slice_set cells.old.items index None }
{
    if index < cells.len() {
        cells[index].take()
    } else {
        None
    }
}
