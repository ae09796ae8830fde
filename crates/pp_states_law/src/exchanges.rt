// One exchange is changed, or is over.
ghost use Rattle.pp_states_law.specs.Exchanges.{EndsAreTheLaws, LeavesAreTheLaws, UnplacesAreTheLaws};

/// Its request leaves it.
pub fn leaves_are_the_laws()
    ensures leaves { LeavesAreTheLaws }
{}

/// One that stands in no line waits again for a place, or is over.
pub fn ends_are_the_laws()
    ensures unplaced { UnplacesAreTheLaws }
    ensures ends { EndsAreTheLaws }
{}
