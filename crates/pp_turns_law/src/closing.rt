// A connection to an origin is closed, and dropped.
ghost use Rattle.pp_turns_law.specs.Connections.{ClosingsAreTheLaws, DropsAreTheLaws};
ghost use Rattle.pp_turns_law.specs.Log.{ClosingOnesAreDroppedAsTheLaws};

/// Alone, or with an exchange of its line.
pub fn connections_are_the_laws()
    ensures closings { ClosingsAreTheLaws }
    ensures drops { DropsAreTheLaws }
{}

/// All that are closing leave the log's connections, one behind the other.
pub fn closing_ones_are_dropped_as_the_laws()
    ensures dropped { ClosingOnesAreDroppedAsTheLaws }
{}
