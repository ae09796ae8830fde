// From one keeping to the next.
ghost use Rattle.pp_grown_law.specs.Grown.{EventsNoteGrown, KeepingsLeaveNothing, LeavingsNoteGrown, NotedOnesHaveGrown, SettlingsLeaveNothing, WaitsLeaveNothing};
ghost use Rattle.pp_grown_law.specs.Handled.{EventsBringNothing, EventsKeepFields, ShownChunksAreWhole};
ghost use Rattle.pp_grown_law.specs.Numbered.{ShownOnesAreNumbered};
ghost use Rattle.pp_grown_law.specs.Reads.{HandlingsNoteGrown, ReadsNoteGrown, ShownLinesAreShort};
ghost use Rattle.pp_grown_law.specs.Settled.{SettlingsBringNothing, WaitsBringNothing};
ghost use Rattle.pp_grown_law.specs.Turns.{TurnsCarryKept, TurnsMayKeep, WaitsCarryKept};

/// Decisions, rounds and the wait bring nothing that is to be kept, where each exchange has a number of its own, as it has where the turn shows
/// the law's state.
pub fn settlings_bring_nothing()
    ensures settlings { SettlingsBringNothing }
    ensures waits { WaitsBringNothing }
    ensures numbered { ShownOnesAreNumbered }
{}

/// An event brings nothing that is to be kept, but for the read of an origin: a chunk that is read back was kept whole. Each entry of the shelf has
/// the fields that are kept of them still.
pub fn events_bring_nothing()
    ensures events { EventsBringNothing }
    ensures whole { ShownChunksAreWhole }
    ensures fields { EventsKeepFields }
{}

/// Behind a keeping nothing is to be kept, up to the next event; behind that each instance that has more to keep is noted as grown, where the
/// next keeping begins.
pub fn what_grew_is_noted()
    ensures keepings { KeepingsLeaveNothing }
    ensures settlings { SettlingsLeaveNothing }
    ensures waits { WaitsLeaveNothing }
    ensures events { EventsNoteGrown }
    ensures leavings { LeavingsNoteGrown }
    ensures grown { NotedOnesHaveGrown }
{}

/// Where an origin is read, each instance to which bytes come is noted as grown: a line has 8 exchanges at most. So behind each event each that has
/// more to keep is.
pub fn reads_note_grown()
    ensures reads { ReadsNoteGrown }
    ensures short { ShownLinesAreShort }
    ensures handlings { HandlingsNoteGrown }
{}

/// And so over a turn: where its keeping begins what grew is noted, and behind it nothing is to be kept, up to the next event; each entry of the
/// shelf has the fields that are kept of them all the time.
pub fn turns_keep_all()
    ensures may { TurnsMayKeep }
    ensures carried { TurnsCarryKept }
    ensures waits { WaitsCarryKept }
{}
