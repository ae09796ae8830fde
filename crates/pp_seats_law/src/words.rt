// What is said of a seat is what the law says of its client.
ghost use Rattle.pp_seats_law.specs.Begins.{NewSeatsShow, RepliesMayBegin};
ghost use Rattle.pp_seats_law.specs.Words.{BegunIsTheLaws, NextsAreTheLaws, PassedIsTheLaws, RepliesAreTheLaws, ToldIsTheLaws, UndecidedIsTheLaws, UsesAreTheLaws};

/// A client that was accepted; and whose reply may begin.
pub fn seats_begin_as_the_laws()
    ensures accepted { NewSeatsShow }
    ensures may_begin { RepliesMayBegin }
{}

/// The next byte of an instance that a client follows, and which of its bytes are among those that are said.
pub fn nexts_are_the_laws()
    ensures next { NextsAreTheLaws }
    ensures used { UsesAreTheLaws }
{}

/// The reply that was decided, and whether it has begun; whether none was; whether the head of its exchange's response came, and
/// the response that is passed.
pub fn stages_are_the_laws()
    ensures replies { RepliesAreTheLaws }
    ensures begun { BegunIsTheLaws }
    ensures undecided { UndecidedIsTheLaws }
    ensures told { ToldIsTheLaws }
    ensures passed { PassedIsTheLaws }
{}
