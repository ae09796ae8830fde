// A response that is passed.
ghost use Rattle.pp_answers_law.specs.Disproving.{DisprovedAreTheLaws};
ghost use Rattle.pp_answers_law.specs.Outdates.{PassedHeadsAreTheLaws};
ghost use Rattle.pp_answers_law.specs.Throughs.{ThroughHeadsAreTheLaws};

/// It shows that the row of its key is not what the origin has.
pub fn rows_are_outdated_as_the_laws()
    ensures disproved { DisprovedAreTheLaws }
{}

/// Its head, whole: where it names no other place, and with the places that it names.
pub fn passed_heads_are_the_laws()
    ensures through { ThroughHeadsAreTheLaws }
    ensures places { PassedHeadsAreTheLaws }
{}
