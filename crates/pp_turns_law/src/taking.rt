// A decision that is taken.
ghost use Rattle.pp_turns_law.specs.Takes.{RefusedRowsAreTheLaws, TakesAreTheLaws, TakingsRegain};

/// What it leaves is what the law makes of it, also where memory is refused for the row; attempts count anew behind that.
pub fn taken_ones_are_the_laws()
    ensures takes { TakesAreTheLaws }
    ensures refuses { RefusedRowsAreTheLaws }
    ensures regains { TakingsRegain }
{}
