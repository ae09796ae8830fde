// A connection is dialled, and one is dropped.
ghost use Rattle.pp_states_law.specs.Dials.{DialsAreTheLaws, DropsAreTheLaws, EmptyDropsAreTheLaws};

/// One begins, on which nothing was asked, and one is gone.
pub fn dials_are_the_laws()
    ensures dials { DialsAreTheLaws }
    ensures drops { DropsAreTheLaws }
    ensures empty { EmptyDropsAreTheLaws }
{}
