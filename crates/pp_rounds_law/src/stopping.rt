// Stop.
ghost use Rattle.pp_rounds_law.specs.Stops.{StopsAreTheLaws};

/// All connections are closed, and the log may end.
pub fn stops_are_the_laws()
    ensures stops { StopsAreTheLaws }
{}
