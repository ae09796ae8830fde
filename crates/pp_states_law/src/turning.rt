// How a turn begins.
ghost use Rattle.pp_states_law.specs.Frames.{FramesAreTheLaws};
ghost use Rattle.pp_states_law.specs.Turns.{ClocksAreTheLaws, LeapsAreTheLaws, OpensAreTheLaws, OriginTouchesAreTheLaws, TouchesAreTheLaws};

/// A client is accepted, and the clock ticks, or leaps; of what no part of the program's state stands for, nothing is shown.
pub fn turns_begin_as_the_laws()
    ensures frames { FramesAreTheLaws }
    ensures opens { OpensAreTheLaws }
    ensures leaps { LeapsAreTheLaws }
    ensures clocks { ClocksAreTheLaws }
{}

/// An event comes on the connection of a client, or of an origin.
pub fn touches_are_the_laws()
    ensures touches { TouchesAreTheLaws }
    ensures origins { OriginTouchesAreTheLaws }
{}
