// How a request fares is how the law has it fare.
ghost use Rattle.pp_seats_law.specs.Fates.{AnewIsTheLaws, AttemptsAreTheLaws, EndsAreTheLaws, LongAsksAreTheLaws, RowsLeaveAsTheLaws, SharedRowsLeaveAsTheLaws, UnfilledIsTheLaws};

/// An attempt is lost, attempts count anew, they end at once, or what would be asked is too long.
pub fn courses_are_the_laws()
    ensures attempts { AttemptsAreTheLaws }
    ensures counts_anew { AnewIsTheLaws }
    ensures ends { EndsAreTheLaws }
    ensures long_asks { LongAsksAreTheLaws }
{}

/// A row is cleared: that whose hole nobody fills, which is told by the course of its client, or one that may not be shared.
pub fn rows_leave_as_the_laws()
    ensures rows { RowsLeaveAsTheLaws }
    ensures shared { SharedRowsLeaveAsTheLaws }
    ensures unfilled { UnfilledIsTheLaws }
{}
