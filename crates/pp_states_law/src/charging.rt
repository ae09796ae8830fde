// What an exchange costs its request.
ghost use Rattle.pp_states_law.specs.Charges.{FailuresAreTheLaws, LossesAreTheLaws, RowsAreTheLaws};

/// A row whose hole nobody fills is cleared; an attempt is lost; and they end at once.
pub fn charges_are_the_laws()
    ensures rows { RowsAreTheLaws }
    ensures attempts { LossesAreTheLaws }
    ensures ends { FailuresAreTheLaws }
{}
