// From one wait to the next.
ghost use Rattle.pp_turn_law.specs.OverWaits.{NamesHaveRoomBehind, OriginsAreApartAgain};

/// No origin gets the number of a client that was read at the wait.
pub fn origins_are_apart_again()
    ensures { OriginsAreApartAgain }
{}

/// Behind the wait a name of each row may be noted, where few are before it.
pub fn names_have_room_behind_waits()
    ensures { NamesHaveRoomBehind }
{}
