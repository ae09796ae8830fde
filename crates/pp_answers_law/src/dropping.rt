// What comes is of no use.
ghost use Rattle.pp_answers_law.specs.Answers.{DropsAreTheLaws, NotSharedAreTheLaws, UselessAreTheLaws};

/// It is dropped, and its request is decided again; an attempt is lost; and what forbids sharing is never shared.
pub fn answers_are_dropped_as_the_laws()
    ensures drops { DropsAreTheLaws }
    ensures useless { UselessAreTheLaws }
    ensures not_shared { NotSharedAreTheLaws }
{}
