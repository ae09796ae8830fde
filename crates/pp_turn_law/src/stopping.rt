// From where Stop is handled to the end of the log.
ghost use Rattle.pp_turn_law.specs.Stopped.{DecidingOnesStop, HandledOnesStop, StopsAreSaid};

/// Where Stop is handled the turn decides, and closes all; the log goes on so, nobody is left, and it may end there.
pub fn stopped_ones_end()
    ensures said { StopsAreSaid }
    ensures deciding { DecidingOnesStop }
    ensures handled { HandledOnesStop }
{}
