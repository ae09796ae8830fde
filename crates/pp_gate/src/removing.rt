// No entry under a name.
ghost use Rattle.std.specs.Prelude.{◌≡◌, ◌≤◌, [], ◌∷◌, None, OnErr, is_ok};
ghost use Rattle.pp_world.specs.declared.op.DiskOp.TheVariants.{Remove};
ghost use Rattle.pp_world.specs.Log.{Rises};
ghost use Rattle.pp_gate.specs.Gate.{OldOr, OthersSame};
ghost use Rattle.pp_gate.specs.Runs.{EachMoment, RunsOps};

use pp_world::{Disk, DiskFault, Name};

/// Takes the file of this name away.
pub fn remove<D: Disk>(disk: &mut D, name: &Name) -> Result<(), DiskFault>
    ensures ops { RunsOps (D.log disk.old) (D.log disk.new) (Remove name.now ∷ []) (is_ok result) }
    ensures old_or_none { EachMoment (D.log disk.old) (D.log disk.new) (OldOr name.now None) }
    ensures others { EachMoment (D.log disk.old) (D.log disk.new) (OthersSame name.now) }
    ensures faults { D.faults disk.old ≤ D.faults disk.new }
    ensures cause { OnErr result (Rises (D.log disk.new) (D.faults disk.old) (D.faults disk.new)) }
    ensures top { D.top disk.new ≡ D.top disk.old }
{
    disk.remove(name)
}
