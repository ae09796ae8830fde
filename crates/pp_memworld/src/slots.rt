// What stands under each name.
ghost use Rattle.std.specs.Prelude.{◌≡◌, false, ℕ, List, bytes_eq, OnOk};
ghost use Rattle.std.specs.BTreeMap.{insert_entry};
ghost use Rattle.pp_world.specs.Files.{name_order};
ghost use Rattle.pp_memworld.specs.Slots.{Changes, files_at};

use crate::slot::Slot;
use pp_text::OutOfMemory;
use pp_world::Name;
use std::alloc::Global;
use std::collections::BTreeMap;

pub(crate) type Slots = BTreeMap<Name, Slot>;

/// Takes out what stands under the name.
pub(crate) fn take(slots: &mut Slots, alloc: Global, name: &Name) -> Slot
    ensures taken { result ≡ files_at name.now slots.old }
    ensures others { (other : List ℕ) → bytes_eq name.now other ≡ false → files_at other slots.new ≡ files_at other slots.old }
{
    match slots.remove(name) {
        Some(slot) => slot,
        None => Slot::of(alloc, None),
    }
}

/// Sets what stands under the name.
pub(crate) fn put(slots: &mut Slots, name: &Name, slot: Slot) -> Result<(), OutOfMemory>
    ensures changes { OnOk result (Changes name.now (λ files. slot) slots.old slots.new) }
    ensures entries { OnOk result (slots.new.entries ≡ insert_entry name_order slots.old.entries name.now slot) }
{
    match slots.insert(*name, slot) {
        Ok(_) => Ok(()),
        Err(_) => Err(OutOfMemory),
    }
}
