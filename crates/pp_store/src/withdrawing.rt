// An entry that is kept no more.
ghost use Rattle.std.specs.Prelude.{◌≡◌, ◌≤◌, [], ◌∷◌, None, IsSome, OnErr, is_ok};
ghost use Rattle.pp_world.specs.declared.op.DiskOp.TheVariants.{Remove};
ghost use Rattle.pp_world.specs.Log.{Rises, Told};
ghost use Rattle.pp_target.specs.Name.{name_of};
ghost use Rattle.pp_gate.specs.Gate.{OldOr, OthersSame};
ghost use Rattle.pp_gate.specs.Runs.{EachMoment, RunsOps};
ghost use Rattle.pp_store.specs.Changes.{withdrawn_after};
ghost use Rattle.pp_gate.specs.Files.{Sent};
ghost use Rattle.pp_store.specs.Held.{Covers, Holds, StaysBacked};
ghost use Rattle.pp_store.specs.Kept.{kept_of};

use crate::store::Store;
use pp_gate::remove;
use pp_world::{Disk, DiskFault};

impl Store {
    /// Takes the entry of a key off the disk. Where the disk fails, the name is closed, and a crash may
    /// bring the entry back.
    pub fn withdraw<D: Disk>(&mut self, disk: &mut D, key: &[u8]) -> Result<(), DiskFault>
        ghost sent: { Sent }
        requires kept { IsSome (kept_of key.now self.old) }
        requires holds { Told (D.log disk.old) (Holds sent self.old) }
        ensures map { self.new ≡ withdrawn_after result key.now self.old }
        ensures holds { Told (D.log disk.new) (Holds sent self.new) }
        ensures covers { Told (D.log disk.old) (Covers self.old) → Told (D.log disk.new) (Covers self.new) }
        ensures ops { RunsOps (D.log disk.old) (D.log disk.new) (Remove (name_of key.now) ∷ []) (is_ok result) }
        ensures old_or_none { EachMoment (D.log disk.old) (D.log disk.new) (OldOr (name_of key.now) None) }
        ensures others { EachMoment (D.log disk.old) (D.log disk.new) (OthersSame (name_of key.now)) }
        ensures backed { EachMoment (D.log disk.old) (D.log disk.new) (StaysBacked sent) }
        ensures faults { D.faults disk.old ≤ D.faults disk.new }
        ensures cause { OnErr result (Rises (D.log disk.new) (D.faults disk.old) (D.faults disk.new)) }
        ensures top { D.top disk.new ≡ D.top disk.old }
    {
        let site = self.site(key);
        match remove(disk, &site.name) {
            Ok(()) => {
                self.forget(key);
                Ok(())
            }
            Err(fault) => {
                self.lose(key);
                Err(fault)
            }
        }
    }
}
