// Exchanges whose connection is gone.
ghost use Rattle.pp_states_law.specs.Lines.{LinesAreTheLaws};
ghost use Rattle.pp_states_law.specs.Losses.{LossesAreTheLaws};

/// One is over, or is asked elsewhere; and so are all of the line of a connection that is closed, one behind the other.
pub fn losses_are_the_laws()
    ensures losses { LossesAreTheLaws }
    ensures lines { LinesAreTheLaws }
{}
