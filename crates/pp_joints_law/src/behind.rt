// What is carried stands behind events.
ghost use Rattle.pp_joints_law.specs.Behind.{AcceptsCarry, ReachesCarry, StopsCarry, TicksCarry};
ghost use Rattle.pp_joints_law.specs.BehindBytes.{OriginBytesCarry};
ghost use Rattle.pp_joints_law.specs.BehindEnds.{OriginEndsCarry};
ghost use Rattle.pp_joints_law.specs.BehindLoads.{LoadsCarry};
ghost use Rattle.pp_joints_law.specs.BehindLosses.{LossesCarry, ReadsAreOwedSo, WritesAreOwedSo};
ghost use Rattle.pp_joints_law.specs.BehindReads.{BreaksCarry, ClientReadsCarry, ClientWritesCarry, OriginWritesCarry};

/// Behind those that add nothing to the log: Stop, a client that comes, a connection that was reached, and the clock.
pub fn silent_events_carry()
    ensures stops { StopsCarry }
    ensures accepts { AcceptsCarry }
    ensures reaches { ReachesCarry }
    ensures ticks { TicksCarry }
{}

/// Behind the read of a client, and behind a write to one for which nothing is read back before.
pub fn calls_of_clients_carry()
    ensures reads { ClientReadsCarry }
    ensures writes { ClientWritesCarry }
{}

/// Behind the write to an origin, and where its connection breaks.
pub fn calls_of_origins_carry()
    ensures writes { OriginWritesCarry }
    ensures breaks { BreaksCarry }
{}

/// Where a read or a write is owed to an event.
pub fn what_is_owed_carries()
    ensures reads { ReadsAreOwedSo }
    ensures writes { WritesAreOwedSo }
{}

/// Behind a write before which a chunk could not be read back.
pub fn losses_of_chunks_carry()
    ensures carries { LossesCarry }
{}

/// Behind a write before which a chunk was read back.
pub fn loads_of_chunks_carry()
    ensures carries { LoadsCarry }
{}

/// Behind the read of an origin that brings nothing of a response.
pub fn ends_of_origins_carry()
    ensures carries { OriginEndsCarry }
{}

/// Behind the read of an origin that brings bytes.
pub fn bytes_of_origins_carry()
    ensures carries { OriginBytesCarry }
{}
