// From the end of a turn to where an event is awaited.
ghost use Rattle.pp_turn_law.specs.Waited.{TurnsWait};

/// Where a turn ends it waits, as the law permits, and an event is awaited; all that is carried stands there.
pub fn turns_wait()
    ensures { TurnsWait }
{}
