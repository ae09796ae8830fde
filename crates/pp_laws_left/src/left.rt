// What a turn leaves of replies, of what is said and passed, and of places where no head is.
ghost use Rattle.pp_laws_left.specs.Bodies.{BeginningsKeepBodies, BodiesAreAwaited, BodiesArePassed, EndsOwnBodies, LateBodiesAreOwned, LeftIsWhole, PlacesKeepBodies, SomeWaitIsPermitted, TurnsCanWait, TurnsLeaveAll, UnseenBodiesGo};
ghost use Rattle.pp_laws_left.specs.Filled.{EndsAreFilled, FollowedAreWithin, LateAreReady};
ghost use Rattle.pp_laws_left.specs.Left.{EndsAreLeft, EndsAreSpoken, EndsAreToPass, SendersAreThere, TurnsAreLeft, TurnsAreSpoken};
ghost use Rattle.pp_laws_left.specs.Owned.{EndsAreOwned, TurnsAreOwned};
ghost use Rattle.pp_laws_left.specs.Unended.{HappeningsEndNoTurn, TurnsMayEnd};

/// No reply goes on behind its end, one that is passed has no bytes of a row, and any other has its row; and a place where no head is
/// has a page, once something was decided for it.
pub fn turns_are_left()
    ensures left { TurnsAreLeft }
{}

/// So it is in the state in which a turn ends, before replies begin.
pub fn ends_are_left()
    ensures left { EndsAreLeft }
{}

/// As long as a client goes on, no reply that was said whole does, and one that is passed has its response; and so it is of everybody
/// where a turn may end.
pub fn turns_are_spoken()
    ensures spoken { TurnsAreSpoken }
    ensures ends { EndsAreSpoken }
{}

/// As a turn ends, whose pipe has no room may be answered by what is passed.
pub fn ends_are_to_pass()
    ensures pass { EndsAreToPass }
{}

/// As a turn ends, the client of an exchange that waits for its body is there, did not hang up, and has room.
pub fn senders_are_there()
    ensures there { SendersAreThere }
{}

/// No happening leaves a turn at its end, but for a row that leaves memory for the decision that is next; so where a turn may end, its
/// last happening left it before its end.
pub fn happenings_end_no_turn()
    ensures early { HappeningsEndNoTurn }
    ensures may { TurnsMayEnd }
{}

/// As long as a client goes on, and goes on trying, it has its exchange where that told it nothing, or where more is passed to it; and so
/// it is of everybody where a turn may end.
pub fn turns_are_owned()
    ensures owned { TurnsAreOwned }
    ensures ends { EndsAreOwned }
{}

/// Where followers ask, what each follows ends within the body; behind that phase, until the turn may end, what they ask for stays ready;
/// so where it may end, the next byte of each that goes on trying, of a row that stands, is there or comes.
pub fn ends_are_filled()
    ensures within { FollowedAreWithin }
    ensures late { LateAreReady }
    ensures ends { EndsAreFilled }
{}

/// An exchange has more of a body to ask only where its request is passed, and no place, dial, drop or reply that begins leaves one.
pub fn bodies_are_owned()
    ensures passed { BodiesArePassed }
    ensures places { PlacesKeepBodies }
    ensures begins { BeginningsKeepBodies }
{}

/// The response to an exchange that has more of a body to ask is none that is dropped as it comes; so where what nobody sees is dropped,
/// what is passed for nobody, and has more of a body to ask, goes with its connection.
pub fn unseen_bodies_go()
    ensures awaited { BodiesAreAwaited }
    ensures go { UnseenBodiesGo }
{}

/// So behind that phase each of these that has a place is somebody's until Stop, and so it is where a turn may end.
pub fn bodies_stay_owned()
    ensures late { LateBodiesAreOwned }
    ensures ends { EndsOwnBodies }
{}

/// So where a turn may end, all stands that is asked of what it leaves; and nothing is asked but of the state in which it may.
pub fn turns_leave_all()
    ensures whole { LeftIsWhole }
    ensures all { TurnsLeaveAll }
{}

/// So a turn that may end can wait, with wants that are as good as those of the law, which are among them: some wait is permitted.
pub fn turns_can_wait()
    ensures good { TurnsCanWait }
    ensures some { SomeWaitIsPermitted }
{}
