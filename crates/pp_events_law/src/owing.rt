// A read or a write of a connection is owed.
ghost use Rattle.pp_events_law.specs.Woken.{ClientReadsAreOwed, ClientWritesAreOwed, OriginReadsAreOwed, OriginWritesAreOwed};

/// Of a client.
pub fn clients_are_owed_as_by_the_law()
    ensures reads { ClientReadsAreOwed }
    ensures writes { ClientWritesAreOwed }
{}

/// Of an origin.
pub fn origins_are_owed_as_by_the_law()
    ensures reads { OriginReadsAreOwed }
    ensures writes { OriginWritesAreOwed }
{}
