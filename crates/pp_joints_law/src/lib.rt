//! What a turn carries from wait to wait, and the joints of its pieces, from its event to its wait.
//!
//! Each piece of a turn is proved from where the one before leaves it: the wait (`pp_waits_law`), the event (`pp_events_law`), what leaves
//! memory behind it (`pp_evicting_law`), what is kept on the disk (`pp_keeps_law`, `pp_kept_law`), and decisions, rounds and the end
//! (`pp_rounds_law`). Each carries what it works on; `specs/Carried.antt` has the rest, which some piece rests on and no other changes: what
//! is on the disk, what is set for the life, which connections are open, and that exchanges can be asked.
//!
//! `specs/Handled.antt`: where an event is handled, the turn stands where memory may be left. `specs/Leaving.antt`: there it may, and what is
//! carried stands behind. `specs/Keeping.antt`: then the disk may be worked on, and behind it the turn stands where decisions come next.
//! `specs/Deciding.antt`: there decisions and rounds begin, or at Stop all is closed. `specs/Serving.antt`: where those end the turn may wait,
//! and nothing that is set was changed. `specs/Settling.antt`: what is carried stands there, and behind the wait. `specs/Awaiting.antt`: behind
//! the wait the turn stands where an event is awaited. `specs/Opened.antt`: a life begins as by the law, and at its first wait all of this
//! stands.
//!
//! `specs/Behind.antt`: behind Stop, a client that comes, a connection that was reached, and the clock, what is carried stands, and what
//! leaves memory may leave it. `specs/BehindReads.antt` has the same behind the read of a client and a write to one for which nothing is read
//! back before, behind the write to an origin, and where its connection breaks; `specs/BehindEnds.antt` behind the read of an origin that
//! brings nothing of a response, `specs/BehindBytes.antt` behind one that brings bytes. `specs/BehindLosses.antt` has it where a read or a
//! write is owed, and behind a write before which a chunk could not be read back; `specs/BehindLoads.antt` where it was, and
//! `specs/Loading.antt` some of what the read of a chunk rests on. Where attempts are lost rows are cleared in the program and in the law,
//! each for itself: that they are the same follows from what both show before and behind. `specs/Unnoted.antt`: none that left memory is
//! left to be noted from there to the next wait.
//!
//! `specs/HeadsNote.antt`: of each head that comes on a connection, beside the row that is kept of its key, what is noted and what has to
//! leave memory are the same in both behind it; `specs/DataTies.antt` has it behind data, and `specs/EndsTie.antt` where a response is whole,
//! or is none. `specs/MomentsNote.antt` joins them from one moment of a read to the next, where what is kept on the disk is the law's;
//! `specs/ReadsNoteAll.antt` has it of all moments of a read, also of a head that names other places; `specs/ReadsBegin.antt` where the read begins;
//! and `specs/ReadsCome.antt` from the wait on, at each moment and behind all of it (ComesSo of `specs/BehindBytes.antt`);
//! `specs/ReadsNoteFew.antt` has how many names all heads of a read may note.
//!
//! To the layer above: each is the clause of a function that does nothing. It is one part of the proof that the program obeys the law.
//!
//! Takes no memory, and does nothing when the program runs.
#![tactic(auto)]

mod awaiting; // to an event
mod behind; // what is carried stands behind events
mod deciding; // behind the disk
mod handling; // behind an event
mod heads; // what heads leave to be noted
mod keeping; // before and behind the disk
mod leaving; // what leaves memory
mod loading; // before a chunk is read back
mod moments; // from moment to moment of a read
mod noting; // what left memory
mod opened; // a life begins
mod serving; // to the wait
mod settling; // and what is carried

pub use awaiting::turns_await_behind_waits;
pub use behind::{
    bytes_of_origins_carry, calls_of_clients_carry, calls_of_origins_carry, ends_of_origins_carry,
    loads_of_chunks_carry, losses_of_chunks_carry, silent_events_carry, what_is_owed_carries,
};
pub use deciding::turns_decide_behind_keepings;
pub use handling::memory_is_left_behind_events;
pub use heads::{
    heads_forget_as_the_law, heads_note_few, heads_note_what_they_clear, heads_tie_as_they_come,
    reads_note_few,
};
pub use keeping::keepings_come_behind_what_leaves;
pub use leaving::memory_may_be_left_behind_events;
pub use loading::what_is_carried_may_be_read_back;
pub use moments::{
    moments_note_what_they_clear, reads_begin_noted, reads_come_with_what_they_clear,
    reads_note_what_they_clear,
};
pub use noting::what_left_memory_is_noted;
pub use opened::{
    first_turns_begin, lives_begin_as_by_the_law, lives_may_break_off, lives_wake_behind_crashes,
    numbers_are_the_logs, openings_lead_to_listening,
};
pub use serving::{turns_may_wait_behind_rounds, what_is_set_stays_set};
pub use settling::{settlings_carry, waits_carry};
