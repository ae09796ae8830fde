// What each client is to be said first.
ghost use Rattle.pp_given_law.specs.Begins.{TextsAsRepliesBegin};
ghost use Rattle.pp_given_law.specs.Laws.{TextsBehindEvents, TextsInEvents, TextsOverWaits};

/// It has room over a wait.
pub fn texts_have_room_over_waits()
    ensures { TextsOverWaits }
{}

/// Over each event, under a name of at most 64 bytes, where the life did not go astray by it.
pub fn texts_have_room_in_events()
    ensures { TextsInEvents }
{}

/// And behind it.
pub fn texts_have_room_behind_events()
    ensures { TextsBehindEvents }
{}

/// And as replies begin at the end of a turn, of bodies whose length has 64 bits.
pub fn texts_have_room_as_replies_begin()
    ensures { TextsAsRepliesBegin }
{}
