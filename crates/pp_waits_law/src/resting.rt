// What a wait leaves.
ghost use Rattle.pp_waits_law.specs.Rests.{RestsAreTheLaws, WantsLeaveTurns};

/// Once the wants are written, those alone are looked at that are not silent.
pub fn wants_leave_turns_as_they_were()
    ensures left { WantsLeaveTurns }
{}

/// Behind the wait the turn shows what the law's wait leaves.
pub fn turns_rest_as_the_laws()
    ensures rests { RestsAreTheLaws }
{}
