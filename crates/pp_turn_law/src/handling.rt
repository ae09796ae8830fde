// An event that is handled.
ghost use Rattle.pp_turn_law.specs.Called.{ClientLoadsAreHandled, ClientReadsAreHandled, ClientWritesAreHandled, OriginWritesAreHandled};
ghost use Rattle.pp_turn_law.specs.Handled.{BrokenOnesAreHandled, ClientsAreHandled, ReachedOnesAreHandled, StopsAreHandled, TicksAreHandled};

/// From the end of a turn, over its wait, to where Stop, an origin that was reached, a client that comes, a tick, or a connection that
/// breaks is handled; the log goes on so, all that is carried stands behind it, and what leaves memory may leave it.
pub fn silent_ones_are_handled()
    ensures stops { StopsAreHandled }
    ensures reached { ReachedOnesAreHandled }
    ensures clients { ClientsAreHandled }
    ensures ticks { TicksAreHandled }
    ensures broken { BrokenOnesAreHandled }
{}

/// And to where a client is read, a client is written to whose next byte is not on the disk alone, or an origin is asked.
pub fn calls_are_handled()
    ensures reads { ClientReadsAreHandled }
    ensures writes { ClientWritesAreHandled }
    ensures asks { OriginWritesAreHandled }
{}

/// And to where a client is written to whose next byte is on the disk alone, or where its chunk could not be read back.
pub fn loads_are_handled()
    ensures { ClientLoadsAreHandled }
{}
