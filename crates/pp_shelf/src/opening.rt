// A folder becomes a shelf.
ghost use Rattle.std.specs.Prelude.{◌≡◌, ◌≤◌, IfOk};
ghost use Rattle.pp_world.specs.Files.{Files};
ghost use Rattle.pp_world.specs.Log.{Told};
ghost use Rattle.pp_gate.specs.Files.{Sent};
ghost use Rattle.pp_recover.specs.Faults.{CountsFailures, OpenCause};
ghost use Rattle.pp_recover.specs.Looks.{Extends};
ghost use Rattle.pp_recover.specs.Opening.{AllSent, IsFresh};
ghost use Rattle.pp_store.specs.Held.{Holds};
ghost use Rattle.pp_shelf.specs.Opening.{OpensAs, Recovers};

use crate::shelf::Shelf;
use pp_recover::{RecoverFault, open};
use pp_world::Disk;
use std::alloc::Global;

impl Shelf {
    /// Uses a folder, and takes the entries that an earlier life left in it.
    #[tactic(auto, using(crate::proofs::OpeningLemmas::opens_as, crate::proofs::OpeningLemmas::fresh_behind, crate::proofs::OpeningLemmas::holds_behind, crate::proofs::OpeningLemmas::recovers_behind))]
    pub fn open<D: Disk>(alloc: Global, disk: &mut D, folder: &[u8]) -> Result<Shelf, RecoverFault>
        ghost sent: { Sent }
        requires fresh { Told (D.log disk.old) (λ l. (files : Files) × IsFresh files l) }
        requires sent { Told (D.log disk.old) (λ l. (files : Files) → IsFresh files l → AllSent sent files) }
        ensures opens { OpensAs folder.now result (D.log disk.old) (D.log disk.new) }
        ensures recovers { Extends (D.log disk.old) (D.log disk.new) (λ before hs. (files : Files) → IsFresh files before → Recovers folder.now result files before hs) }
        ensures holds { IfOk result (λ shelf. Told (D.log disk.new) (Holds sent shelf)) }
        ensures faults { D.faults disk.old ≤ D.faults disk.new }
        ensures counted { Extends (D.log disk.old) (D.log disk.new) (CountsFailures (D.faults disk.old) (D.faults disk.new)) }
        ensures cause { OpenCause (D.log disk.new) (D.faults disk.old) (D.faults disk.new) result }
        ensures top { D.top disk.new ≡ D.top disk.old }
    {
        disk.root(folder);
        match open(alloc, disk) {
            Ok(store) => Ok(Shelf::new(store)),
            Err(fault) => Err(fault),
        }
    }
}
