// All that are closing leave the log's connections.
ghost use Rattle.pp_places_law.specs.Closings.{ClosingsAreTheLaws, LinksAreLeft};

/// Clients, and then connections to origins, before Stop; the others are open still.
pub fn closing_ones_leave_as_the_laws()
    ensures closes { ClosingsAreTheLaws }
    ensures links { LinksAreLeft }
{}
