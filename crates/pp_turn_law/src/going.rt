// From one wait to the next.
ghost use Rattle.pp_turn_law.specs.Going.{TurnsGoOn};

/// Where a turn waits, and its event is handled, it leads on to the next wait, beside a log that obeys the law; and all that it carries
/// stands there. Where the chunk of a client that was to be written to could not be read back, the turn goes on from there.
pub fn turns_go_on()
    ensures { TurnsGoOn }
{}
