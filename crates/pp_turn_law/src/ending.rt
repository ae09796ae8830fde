// The last turn.
ghost use Rattle.pp_turn_law.specs.Stopping.{FirstTurnsStop, TurnsStop};

/// Where a turn waits and Stop comes, all of it leads to where all is closed, beside a log that obeys the law; nobody is left, and the log may
/// end there. So it does at the first wait of a life.
pub fn turns_stop()
    ensures stops { TurnsStop }
    ensures first { FirstTurnsStop }
{}
