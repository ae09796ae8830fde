// What is written down at a wait.
ghost use Rattle.pp_waits_law.specs.Good.{WaitsArePermitted, WantedWaitsLead, WantsAreAsGood};

/// The wants are as good as the law's, so the law permits the wait, and it leads on to where an event is awaited.
pub fn turns_may_end_with_these_wants()
    ensures good { WantsAreAsGood }
    ensures permitted { WaitsArePermitted }
    ensures leads { WantedWaitsLead }
{}
