//! Behind an event, what leaves memory leaves it as by the law, and so do asks that bring nothing any more.
//!
//! `specs/Evicting.antt`: where an event is handled, attempts count anew in the program as they did in the law; the phase of the event is
//! left without a happening; the notes of rows that left for others, and of chunks that go down to the low mark, may come one behind the
//! other; and behind them asks of followers that bring nothing are given up, without a happening. There the disk is next: the turn shows
//! the law's state again, nothing is left to note, no exchange is nobody's and nowhere, and all else is as it was.
//!
//! To the layer above: the clause of a function that does nothing, in the words of `pp_obeys`. It is one part of the proof that the program
//! obeys the law. That a row which leaves for another is to be noted in both, and that the trigger was reached in both, is a premise.
//!
//! Not said: the event itself; and a turn in which memory was refused for a row.
//!
//! Takes no memory, and does nothing when the program runs.
#![tactic(auto)]

mod behind; // what leaves memory behind an event

pub use behind::what_leaves_behind_events_is_the_laws;
