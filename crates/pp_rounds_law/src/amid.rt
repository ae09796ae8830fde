// The decisions of a round.
ghost use Rattle.pp_rounds_law.specs.InRounds.{DecisionsInARound};

/// They lead as by the law, with what stands beside them; behind the last nothing is due.
pub fn decisions_of_a_round_are_the_laws()
    ensures decisions { DecisionsInARound }
{}
