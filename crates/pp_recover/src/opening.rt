// The names of a folder, one after another.
ghost use Rattle.std.specs.Prelude.{◌≡◌, ◌≤◌, ◌++◌, IfOk, IsTrue, Option, is_ok};
ghost use Rattle.pp_world.specs.Disk.{Bytes, Stands, at_rest, is_rising};
ghost use Rattle.pp_world.specs.Files.{Files};
ghost use Rattle.pp_world.specs.Log.{Told};
ghost use Rattle.pp_gate.specs.Runs.{EachMoment};
ghost use Rattle.pp_store.specs.Changes.{no_entries};
ghost use Rattle.pp_gate.specs.Files.{Sent};
ghost use Rattle.pp_store.specs.Held.{Covers, Holds};
ghost use Rattle.pp_recover.specs.Faults.{CountsFailures, OpenCause};
ghost use Rattle.pp_recover.specs.Image.{HasFewNames};
ghost use Rattle.pp_recover.specs.Looks.{Extends};
ghost use Rattle.pp_recover.specs.Opening.{AllSent, IsFree, IsFresh, Opens, OpensBacked, SameEntries, TendsNames, TendsOne};

use crate::examine::examine;
use crate::faults::RecoverFault;
use crate::strays::MAX_GATES;
use pp_entry::{HEAD_LEN, Scratch};
use pp_store::Store;
use pp_text::OutOfMemory;
use pp_world::{Disk, Name};
use std::alloc::Global;

/// Room for one head block and its gates.
#[derive(Drop)]
struct Room {
    block: [u8; HEAD_LEN],
    gates: [u8; MAX_GATES],
    scratch: Scratch,
}

impl Room {
    fn new() -> Room {
        Room {
            block: [0; HEAD_LEN],
            gates: [0; MAX_GATES],
            scratch: Scratch::new(),
        }
    }
}

/// The entries of a folder, as an earlier life left them, in the order of their names. A name on which
/// an operation or a read failed is closed. Gates that stood open behind one that is not are closed
/// before their entry counts, and stay closed where memory is refused later.
pub fn open<D: Disk>(alloc: Global, disk: &mut D) -> Result<Store, RecoverFault>
    requires fresh { Told (D.log disk.old) (λ l. (files : Files) × IsFresh files l) }
    ensures opens { Extends (D.log disk.old) (D.log disk.new) (λ before hs. (files : Files) → IsFresh files before → Opens result files before hs) }
    ensures moments { EachMoment (D.log disk.old) (D.log disk.new) SameEntries }
    ensures backed { EachMoment (D.log disk.old) (D.log disk.new) OpensBacked }
    ensures holds { IfOk result (λ store. Extends (D.log disk.old) (D.log disk.new) (λ before hs. (files : Files) → IsFresh files before → (sent : Sent) → AllSent sent files → Holds sent store (before ++ hs))) }
    ensures covers { IfOk result (λ store. Extends (D.log disk.old) (D.log disk.new) (λ before hs. (files : Files) → IsFresh files before → HasFewNames files → Covers store (before ++ hs))) }
    ensures faults { D.faults disk.old ≤ D.faults disk.new }
    ensures counted { Extends (D.log disk.old) (D.log disk.new) (CountsFailures (D.faults disk.old) (D.faults disk.new)) }
    ensures cause { OpenCause (D.log disk.new) (D.faults disk.old) (D.faults disk.new) result }
    ensures top { D.top disk.new ≡ D.top disk.old }
{
    let mut store = Store::new(alloc)?;
    let names = disk.names(alloc)?;
    tend_all(alloc, disk, &names, &mut store)?;
    Ok(store)
}

/// Attends to these names, one after another.
fn tend_all<D: Disk>(
    alloc: Global,
    disk: &mut D,
    names: &[Name],
    store: &mut Store,
) -> Result<(), OutOfMemory>
    requires rising { IsTrue (is_rising names.now) }
    requires empty { store.old ≡ no_entries }
    requires fresh { Told (D.log disk.old) (λ l. (files : Files) × IsFresh files l) }
    ensures tends { Extends (D.log disk.old) (D.log disk.new) (λ before hs. (files : Files) → IsFresh files before → TendsNames files names.now (is_ok result) store.new hs) }
    ensures faults { D.faults disk.old ≤ D.faults disk.new }
    ensures counted { Extends (D.log disk.old) (D.log disk.new) (CountsFailures (D.faults disk.old) (D.faults disk.new)) }
    ensures top { D.top disk.new ≡ D.top disk.old }
{
    let mut room = Room::new();
    for name in names {
        tend(alloc, disk, name, &mut room, store)?;
    }
    Ok(())
}

/// Keeps the entry under a name, or closes the name.
fn tend<D: Disk>(
    alloc: Global,
    disk: &mut D,
    name: &Name,
    room: &mut Room,
    store: &mut Store,
) -> Result<(), OutOfMemory>
    requires free { IsFree name.now store.old }
    requires stands { Told (D.log disk.old) (λ l. (file : Option Bytes) × Stands name.now l (at_rest file)) }
    ensures tends { Extends (D.log disk.old) (D.log disk.new) (TendsOne name.now store.old store.new (is_ok result)) }
    ensures others { (other : Bytes) → (name.now ≡ other → ⊥) → IsFree other store.old → IsFree other store.new }
    ensures faults { D.faults disk.old ≤ D.faults disk.new }
    ensures counted { Extends (D.log disk.old) (D.log disk.new) (CountsFailures (D.faults disk.old) (D.faults disk.new)) }
    ensures top { D.top disk.new ≡ D.top disk.old }
{
    match examine(
        disk,
        name,
        &mut room.block,
        &mut room.gates,
        &mut room.scratch,
    ) {
        Ok(Some(found)) => store.found(alloc, &found.entry, found.extent),
        Ok(None) => Ok(()),
        Err(_) => store.close(name),
    }
}
