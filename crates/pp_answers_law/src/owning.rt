// The head of a response to an ask of the cache's own, whole.
ghost use Rattle.pp_answers_law.specs.Fills.{OwnsAreTakenAsTheLaws, PartHeadsAreTheLaws};
ghost use Rattle.pp_answers_law.specs.Owns.{OwnHeadsAreTheLaws};

/// To a Fetch or Validate it settles a row, says that one is unchanged, or is passed; and what becomes of the body is known.
pub fn own_heads_are_the_laws()
    ensures own { OwnHeadsAreTheLaws }
    ensures taken { OwnsAreTakenAsTheLaws }
{}

/// To the ask of a follower, but for what it costs elsewhere.
pub fn part_heads_are_the_laws()
    ensures part { PartHeadsAreTheLaws }
{}
