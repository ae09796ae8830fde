// Where a life did not go astray, and the order of clients.
ghost use Rattle.pp_turn_law.specs.Ordered.{OrderedAsKept, OrderedAsLeft, OrderedAsSettled, OrderedInEvents, OrderedOverWaits, TurnsStayOrdered};
ghost use Rattle.pp_turn_law.specs.Straight.{KeepingsStayAstray, LeavingsStayAstray, SettlingsStayAstray, TurnsStayAstray, TurnsWereStraight};

/// Clients stand in the order of their numbers over each piece of a turn, and over all of it, whatever became of the life.
pub fn clients_stay_ordered()
    ensures waits { OrderedOverWaits }
    ensures events { OrderedInEvents }
    ensures leavings { OrderedAsLeft }
    ensures keepings { OrderedAsKept }
    ensures settlings { OrderedAsSettled }
    ensures turns { TurnsStayOrdered }
{}

/// A life that went astray stays so, over all that follows an event, and over a turn.
pub fn astray_ones_stay_astray()
    ensures leavings { LeavingsStayAstray }
    ensures keepings { KeepingsStayAstray }
    ensures settlings { SettlingsStayAstray }
    ensures turns { TurnsStayAstray }
{}

/// So one that did not go astray up to the end of a turn did not at any place of it.
pub fn straight_ones_were_straight()
    ensures { TurnsWereStraight }
{}
