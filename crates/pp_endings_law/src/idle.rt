// Connections to origins that are idle are closed.
ghost use Rattle.pp_endings_law.specs.Idle.{IdleOneIsClosedAsTheLaws, IdleOnesAreClosedAsTheLaws};

/// One, and all, one behind the other.
pub fn idle_ones_are_closed_as_the_laws()
    ensures one { IdleOneIsClosedAsTheLaws }
    ensures all { IdleOnesAreClosedAsTheLaws }
{}
