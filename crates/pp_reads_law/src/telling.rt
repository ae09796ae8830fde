// What exchanges of clients joined is told by its number.
ghost use Rattle.pp_reads_law.specs.Told.{StepsLeaveAllTold};

/// Behind each step of the pipe that is no head, what exchanges of clients joined is told by the numbers by which it was told before.
pub fn steps_leave_all_told()
    ensures { StepsLeaveAllTold }
{}
