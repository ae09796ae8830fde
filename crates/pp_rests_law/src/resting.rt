// A decision is found.
ghost use Rattle.pp_rests_law.specs.Rests.{DecisionsRest};

/// What it rests on is there.
pub fn what_decisions_rest_on_is_there()
    ensures rest { DecisionsRest }
{}
