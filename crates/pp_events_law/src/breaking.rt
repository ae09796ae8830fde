// A connection to an origin breaks.
ghost use Rattle.pp_events_law.specs.Breaks.{BreaksLead};

/// Its line is over, or asked elsewhere, and replies that are over end.
pub fn connections_break_as_by_the_law()
    ensures leads { BreaksLead }
{}
