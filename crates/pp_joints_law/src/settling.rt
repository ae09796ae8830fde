// Decisions, rounds and the wait leave what is carried.
ghost use Rattle.pp_joints_law.specs.Settling.{SettlingsCarry, WaitsCarry};

/// Behind decisions and rounds what is carried stands where the turn may wait.
pub fn settlings_carry()
    ensures carries { SettlingsCarry }
{}

/// And it stands where an event is awaited.
pub fn waits_carry()
    ensures carries { WaitsCarry }
{}
