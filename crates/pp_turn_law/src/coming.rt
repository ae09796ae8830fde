// An event, behind the wait.
ghost use Rattle.pp_turn_law.specs.Awaited.{EventsAreAwaited};

/// Behind the wait an event comes that was waited for; all stands that its handling rests on.
pub fn events_are_awaited()
    ensures { EventsAreAwaited }
{}
