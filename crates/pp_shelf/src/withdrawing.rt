// An entry is taken away.
ghost use Rattle.std.specs.Prelude.{◌≡◌, ◌≤◌, [], ◌∷◌, IfNone, IfSome, OnErr, is_ok, is_some};
ghost use Rattle.pp_world.specs.declared.op.DiskOp.TheVariants.{Remove};
ghost use Rattle.pp_world.specs.Log.{Rises, Told};
ghost use Rattle.pp_target.specs.Name.{name_of};
ghost use Rattle.pp_shelf.specs.Steady.{GrowsOnDisk};
ghost use Rattle.pp_gate.specs.Files.{Sent};
ghost use Rattle.pp_gate.specs.Runs.{EachMoment, RunsOps};
ghost use Rattle.pp_store.specs.Changes.{withdrawn_after};
ghost use Rattle.pp_store.specs.Kept.{kept_of};
ghost use Rattle.pp_store.specs.Held.{Covers, Holds, StaysBacked};

use crate::shelf::Shelf;
use pp_world::{Disk, DiskFault};

impl Shelf {
    /// Takes the entry of a key off the disk. Where the disk fails, the name is closed, and a crash may bring the entry
    /// back. None exactly where the key is not kept.
    #[tactic(auto, using(crate::proofs::GrowthLemmas::runs_on_disk, pp_store::proofs::Backing::quiet_backed, crate::proofs::SteadyLemmas::on_disk_none))]
    pub fn withdraw<D: Disk>(&mut self, disk: &mut D, key: &[u8]) -> Option<Result<(), DiskFault>>
        ghost sent: { Sent }
        requires { Told (D.log disk.old) (Holds sent self.old) }
        ensures answered { is_some result ≡ is_some (kept_of key.now self.old) }
        ensures none { IfNone result (self.new ≡ self.old) }
        ensures still { IfNone result (D.log disk.new ≡ D.log disk.old) }
        ensures map { IfSome result (λ r. self.new ≡ withdrawn_after r key.now self.old) }
        ensures ops { IfSome result (λ r. RunsOps (D.log disk.old) (D.log disk.new) (Remove (name_of key.now) ∷ []) (is_ok r)) }
        ensures holds { Told (D.log disk.new) (Holds sent self.new) }
        ensures covers { Told (D.log disk.old) (Covers self.old) → Told (D.log disk.new) (Covers self.new) }
        ensures backed { EachMoment (D.log disk.old) (D.log disk.new) (StaysBacked sent) }
        ensures grows { GrowsOnDisk (D.log disk.old) (D.log disk.new) }
        ensures faults { D.faults disk.old ≤ D.faults disk.new }
        ensures cause { IfSome result (λ r. OnErr r (Rises (D.log disk.new) (D.faults disk.old) (D.faults disk.new))) }
        ensures top { D.top disk.new ≡ D.top disk.old }
    {
        if self.store.kept(key).is_none() {
            return None;
        }
        Some(self.store.withdraw(disk, key))
    }
}
