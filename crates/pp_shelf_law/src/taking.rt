// An entry that is taken away.
ghost use Rattle.pp_shelf_law.specs.Takings.{LossesAreTheLaws, WithdrawalsAreTheLaws};

/// It is noted as gone and removed, or its name is closed; one whose name is closed already is noted alone.
pub fn what_is_taken_away_is_the_laws()
    ensures withdrawn { WithdrawalsAreTheLaws }
    ensures lost { LossesAreTheLaws }
{}
