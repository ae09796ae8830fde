// In which slot the row of each key stands.
ghost use Rattle.std.specs.Prelude.{◌≡◌, ℕ, List, Some, None, OnOk, OnErr, bytes_eq, cond};
ghost use Rattle.pp_objects.specs.ByKey.{slot_for};
ghost use Rattle.pp_objects.specs.Inside.{instance_as};
ghost use Rattle.pp_objects.specs.Instances.{is_row_of};

use crate::row::Row;
use pp_text::OutOfMemory;
use std::alloc::Global;
use std::collections::BTreeMap;

/// The slot of each row, by its key.
pub(crate) type Index = BTreeMap<Vec<u8>, u32>;

/// The slot of the key's row. `None` exactly where the key has no row.
pub(crate) fn slot_of_key(index: &Index, key: &[u8]) -> Option<u32>
    ensures { result ≡ slot_for key.now index.now }
{
    match index.get(key) {
        Some(slot) => Some(*slot),
        None => None,
    }
}

/// Sets the slot of a key's row. Where memory is refused, all is as before.
pub(crate) fn put(
    index: &mut Index,
    alloc: Global,
    key: &[u8],
    slot: u32,
) -> Result<(), OutOfMemory>
    ensures ok { OnOk result ((other : List ℕ) → slot_for other index.new ≡ cond (bytes_eq key.now other) (Some slot) (slot_for other index.old)) }
    ensures err { OnErr result ((other : List ℕ) → slot_for other index.new ≡ slot_for other index.old) }
{
    let name = Vec::from_slice(alloc, key)?;
    match index.insert(name, slot) {
        Ok(_) => Ok(()),
        Err(_) => Err(OutOfMemory),
    }
}

/// The key of a row leaves the index. Where the instance is retired, its key is that of no row or of another.
pub(crate) fn leave_index(index: &mut Index, row: &Row)
    ensures { (key : List ℕ) → slot_for key index.new ≡ cond (is_row_of key (instance_as 0 (Some row.now))) None (slot_for key index.old) }
{
    if !row.is_retired {
        index.remove(row.key.as_slice());
    }
}
