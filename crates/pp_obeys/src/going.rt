// How a log goes on.
ghost use Rattle.pp_obeys.specs.Laws.{DoneGoesOn, FailuresAreCounted, PermittedGoesOn, SilentStepsGo};

/// What a state permits that the log may go on as from, may come, and the log goes on as from behind it.
pub fn what_is_permitted_goes_on()
    ensures permitted { PermittedGoesOn }
{}

/// A phase that is done is left without a happening.
pub fn phases_are_left()
    ensures left { DoneGoesOn }
{}

/// Whatever may come some phases on may come at once, and leads to what goes on as the same.
pub fn silent_steps_go()
    ensures go { SilentStepsGo }
{}

/// Within a life each failure of the outside is counted, and no other.
pub fn failures_are_counted()
    ensures counted { FailuresAreCounted }
{}
