// Before and behind the disk.
ghost use Rattle.pp_joints_law.specs.Keeping.{KeepingsCarry, TurnsStandToKeep};

/// Where nothing is left to leave memory, the turn stands to keep what came; behind it what is carried stands, and decisions come next.
pub fn keepings_come_behind_what_leaves()
    ensures stands { TurnsStandToKeep }
    ensures carries { KeepingsCarry }
{}
