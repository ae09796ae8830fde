// Behind each event.
ghost use Rattle.pp_events_law.specs.Anew.{AttemptsCountAnew};

/// Attempts count anew, and the turn stands at the law's state.
pub fn attempts_count_behind_events_as_by_the_law()
    ensures counts { AttemptsCountAnew }
{}
