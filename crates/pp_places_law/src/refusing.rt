// A dial is refused amid the places.
ghost use Rattle.pp_places_law.specs.Refusals.{AllAnswersAreTheLaws, AnswersAreTheLaws};

/// One dial, whatever the world answers, and then all exchanges that wait.
pub fn refused_dials_are_the_laws()
    ensures answers { AnswersAreTheLaws }
    ensures all { AllAnswersAreTheLaws }
{}
