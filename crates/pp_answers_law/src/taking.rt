// The final head of a response, whole.
ghost use Rattle.pp_answers_law.specs.Takes.{
  OwnAnswersAreTheLaws,
  PartAnswersAreTheLaws,
  PassedAnswersAreTheLaws,
  RulesAreTheLaws,
};

/// Whether it answers an ask of its kind, and what it leaves: to a Fetch or Validate, where it is passed, and to the ask of a
/// follower.
pub fn final_heads_are_the_laws()
    ensures rules { RulesAreTheLaws }
    ensures own { OwnAnswersAreTheLaws }
    ensures passed { PassedAnswersAreTheLaws }
    ensures part { PartAnswersAreTheLaws }
{}
