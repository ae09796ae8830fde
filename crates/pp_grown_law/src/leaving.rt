// What leaves memory.
ghost use Rattle.pp_grown_law.specs.Leaving.{LeavesBringNothing, LeavingsBringNothing};

/// It leaves nothing more to keep, and neither does what is done beside it, behind an event and before the disk.
pub fn leavings_bring_nothing()
    ensures memory { LeavingsBringNothing }
    ensures turn { LeavesBringNothing }
{}
