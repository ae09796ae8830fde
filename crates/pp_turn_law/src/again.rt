// From where a turn served to the next wait.
ghost use Rattle.pp_turn_law.specs.Again.{ServedOnesWaitAgain, TurnsNoteAll};

/// Where a turn served it may wait again; of the rows that left memory none is left to be noted.
pub fn served_ones_wait_again()
    ensures noted { TurnsNoteAll }
    ensures again { ServedOnesWaitAgain }
{}
