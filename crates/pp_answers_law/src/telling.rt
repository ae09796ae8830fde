// What the request of an exchange is told.
ghost use Rattle.pp_answers_law.specs.Answers.{TellsAreTheLaws};

/// Where it did not leave the exchange, and has no reply yet.
pub fn tells_are_the_laws()
    ensures tells { TellsAreTheLaws }
{}
