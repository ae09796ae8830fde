// Behind the disk.
ghost use Rattle.pp_joints_law.specs.Deciding.{TurnsDecide, TurnsStop};

/// Decisions may be taken, or at Stop all closed.
pub fn turns_decide_behind_keepings()
    ensures decides { TurnsDecide }
    ensures stops { TurnsStop }
{}
