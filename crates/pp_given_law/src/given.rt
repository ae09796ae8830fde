// Memory was refused for nobody.
ghost use Rattle.pp_given_law.specs.Begins.{GivenAsRepliesBegin};
ghost use Rattle.pp_given_law.specs.Laws.{GivenBehindEvents, GivenInEvents, GivenOverWaits};

/// Over a wait.
pub fn nobody_is_refused_over_waits()
    ensures { GivenOverWaits }
{}

/// Over each event, where the life did not go astray by it.
pub fn nobody_is_refused_in_events()
    ensures { GivenInEvents }
{}

/// And behind it.
pub fn nobody_is_refused_behind_events()
    ensures { GivenBehindEvents }
{}

/// And as replies begin at the end of a turn.
pub fn nobody_is_refused_as_replies_begin()
    ensures { GivenAsRepliesBegin }
{}
