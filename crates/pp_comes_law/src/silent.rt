// Events that add nothing to the log but themselves.
ghost use Rattle.pp_comes_law.specs.Silent.{ClientsCome, ReachedOnesCome, StopsCome, TicksCome};

/// Stop, a tick, an origin that was reached and a client that comes are handled as the law has it.
pub fn silent_events_come_as_by_the_law()
    ensures stops { StopsCome }
    ensures ticks { TicksCome }
    ensures reached { ReachedOnesCome }
    ensures clients { ClientsCome }
{}
