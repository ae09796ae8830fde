// How much there is at most.
ghost use Rattle.pp_laws_bounds.specs.Bounds.{Always, HasFewBodies, HasFewClients, HasFewConnections, HasFewPins, HasFewPlaced, HasFewRows, HasShortLines, KeepsToHosts};

/// At each moment of each lawful log at most 64 connections to origins are there.
pub fn connections_are_few()
    ensures few { Always HasFewConnections }
{}

/// To each host and port at most as many are there as the setting `hostConnections` says.
pub fn hosts_are_spared()
    ensures spared { Always KeepsToHosts }
{}

/// At most 8 asks stand in the line of a connection.
pub fn lines_are_short()
    ensures short { Always HasShortLines }
{}

/// Until Stop at most 512 exchanges have a place.
pub fn placed_exchanges_are_few()
    ensures few { Always HasFewPlaced }
{}

/// At most 1,024 rows are in memory.
pub fn rows_are_few()
    ensures few { Always HasFewRows }
{}

/// At most 64 exchanges bring bodies that belong to a row, or to a version that was retired.
pub fn bodies_are_few()
    ensures few { Always HasFewBodies }
{}

/// At most 320 chunks are pinned.
pub fn pins_are_few()
    ensures few { Always HasFewPins }
{}

/// At most 256 clients are there.
pub fn clients_are_few()
    ensures few { Always HasFewClients }
{}
