// Events that add nothing to the log.
ghost use Rattle.pp_events_law.specs.Silent.{AcceptsLead, ReachesLead, StopsLead, TicksLead};

/// All are looked at, to be closed.
pub fn stops_lead_as_by_the_law()
    ensures leads { StopsLead }
{}

/// A client has a seat, the last.
pub fn clients_come_as_by_the_law()
    ensures leads { AcceptsLead }
{}

/// A connection to an origin is there.
pub fn connections_are_reached_as_by_the_law()
    ensures leads { ReachesLead }
{}

/// A second begins, and connections to origins that are idle are closed.
pub fn seconds_begin_as_by_the_law()
    ensures leads { TicksLead }
{}
