// What stands of each client.
ghost use Rattle.pp_stays_law.specs.Laws.{NobodyIsRefused, TextsKeepTheirRoom};

/// Memory is refused for no row that a client waits for, as long as this life does not go astray.
pub fn nobody_is_refused()
    ensures { NobodyIsRefused }
{}

/// What each is to be said first has room.
pub fn texts_keep_their_room()
    ensures { TextsKeepTheirRoom }
{}
