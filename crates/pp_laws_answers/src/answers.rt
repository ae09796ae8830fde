// Whose response comes.
ghost use Rattle.pp_laws_answers.specs.Answers.{AnswersAreToFirsts};

/// A response that was begun is that to the first exchange of its line, whose text was asked whole.
pub fn answers_are_to_firsts()
    ensures firsts { AnswersAreToFirsts }
{}
