// From the opening of a life over its first turn to its second wait.
ghost use Rattle.pp_turn_law.specs.First.{FirstTurnsGoOn, OpenedOnesAreSized};

/// Where a life listens its first turn waits, whatever event comes is handled, and it leads on to the next wait, beside a log that obeys the law;
/// and all that each turn carries stands there. Its cache may have as many chunks as the settings say that words and text gave.
pub fn first_turns_go_on()
    ensures turns { FirstTurnsGoOn }
    ensures sized { OpenedOnesAreSized }
{}
