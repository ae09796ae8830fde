// What connections depend on.
ghost use Rattle.pp_states_law.specs.Asks.{FramesAreTheLaws};

/// As long as the exchanges of their lines are asked as before, they are shown as before.
pub fn frames_are_the_laws()
    ensures frames { FramesAreTheLaws }
{}
