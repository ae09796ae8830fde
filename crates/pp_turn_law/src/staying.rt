// A whole turn.
ghost use Rattle.pp_turn_law.specs.Whole.{NextWaitsStandBeside, ReadOnesStayRead};

/// Those who were read at its wait were read at the last one, as the next comes.
pub fn read_ones_stay_read()
    ensures { ReadOnesStayRead }
{}

/// What is read into is as long beside the next wait.
pub fn next_waits_stand_beside()
    ensures { NextWaitsStandBeside }
{}
