// At which place of a list the entry under each name stands.
ghost use Rattle.std.specs.Prelude.{◌≡◌, List, ℕ, Some, None, OnOk, OnErr, bytes_eq, cond, option_map};
ghost use Rattle.std.specs.BTreeMap.{get};
ghost use Rattle.pp_world.specs.Files.{name_order};
ghost use Rattle.pp_store.specs.Table.{Leaves, moved_up};

use pp_text::OutOfMemory;
use pp_world::Name;
use std::collections::BTreeMap;

pub(crate) type Places = BTreeMap<Name, usize>;

/// Sets the place of a name. Where memory is refused, all is as before.
pub(crate) fn put(places: &mut Places, name: &Name, place: usize) -> Result<(), OutOfMemory>
    ensures ok { OnOk result ((other : List ℕ) → get name_order places.new other ≡ cond (bytes_eq name.now other) (Some place) (get name_order places.old other)) }
    ensures err { OnErr result ((other : List ℕ) → get name_order places.new other ≡ get name_order places.old other) }
{
    match places.insert(*name, place) {
        Ok(_) => Ok(()),
        Err(_) => Err(OutOfMemory),
    }
}

/// A name leaves the table: the entries behind its own move up by a place.
pub(crate) fn leave(places: &mut Places, name: &Name)
    ensures { Leaves name.now places.old places.new }
{
    if let Some(gone) = places.remove(name) {
        move_up(places, gone);
    }
}

fn move_up(places: &mut Places, gone: usize)
    ensures { (other : List ℕ) → get name_order places.new other ≡ option_map (moved_up gone) (get name_order places.old other) }
{
    places.retain(|_, place| {
        if *place > gone {
            *place -= 1;
        }
        true
    });
}
