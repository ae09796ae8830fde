// From the opening of a life to where its first event is handled.
ghost use Rattle.pp_turn_law.specs.Opening.{CountedOnesAreAfforded, FirstEventsAreAwaited, FirstEventsAreHandled, FirstOnesAreAlone, FirstOnesStandInTurn, FirstTurnsWait, ListenedOnesAllow, OpeningsAreCounted};

/// As a life begins each failure of the outside is counted: so it may fail so often, and as often more as is counted then.
pub fn openings_are_counted()
    ensures counted { OpeningsAreCounted }
    ensures afforded { CountedOnesAreAfforded }
    ensures allowed { ListenedOnesAllow }
{}

/// Where a life listens its first turn waits, as the law permits, and whatever event comes is handled; the log goes on so, all that is carried
/// stands behind it, and what leaves memory may leave it.
pub fn first_events_are_handled()
    ensures stands { FirstOnesStandInTurn }
    ensures waits { FirstTurnsWait }
    ensures alone { FirstOnesAreAlone }
    ensures comes { FirstEventsAreAwaited }
    ensures handled { FirstEventsAreHandled }
{}
