// What grew, over a turn.
ghost use Rattle.pp_turn_law.specs.Grown.{AwaitedOnesMayGrow, EmptyOnesHaveNothing, HandledOnesLeaveNothing, HandledOnesNoteGrown, ServedOnesLeaveNothing, TurnsLeaveNothing};

/// Where nothing is to be kept, as where nothing is in memory, and an event comes that was waited for, what grew by it is noted; behind memory
/// and the disk nothing is to be kept, and behind decisions and rounds neither; and so from one wait to the next.
pub fn what_grew_is_kept()
    ensures empty { EmptyOnesHaveNothing }
    ensures awaited { AwaitedOnesMayGrow }
    ensures handled { HandledOnesNoteGrown }
    ensures kept { HandledOnesLeaveNothing }
    ensures served { ServedOnesLeaveNothing }
    ensures turns { TurnsLeaveNothing }
{}
