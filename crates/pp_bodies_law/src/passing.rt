// Bytes of a response that is passed go into the pipe of its client.
ghost use Rattle.pp_bodies_law.specs.Bytes.{PoursAreTheLaws};
ghost use Rattle.pp_bodies_law.specs.Ends.{ClosesAreTheLaws, FinishesAreTheLaws, RestsAreTheLaws};

/// They go into the pipe.
pub fn pours_are_the_laws()
    ensures pours { PoursAreTheLaws }
{}

/// The response is whole: what is passed of it, and its exchange, behind which the connection rests, or is closed.
pub fn finishes_are_the_laws()
    ensures finishes { FinishesAreTheLaws }
    ensures rests { RestsAreTheLaws }
    ensures closes { ClosesAreTheLaws }
{}
