// A turn ends.
ghost use Rattle.pp_rounds_law.specs.Ends.{EndsAreTheLaws};

/// Where nothing is due it may wait, and replies begin.
pub fn turns_end_as_the_laws()
    ensures ends { EndsAreTheLaws }
{}
