//! A turn as one: from one wait to the next, beside a log that obeys the law.
//!
//! `specs/Going.antt` has all of it: where a turn waits, and its event is handled, it leads on to the next wait, and all that it carries stands
//! there. Its pieces: `specs/Waited.antt`, the wait; `specs/Awaited.antt`, an event behind it, as `pp_comes_law` takes it to where it is handled;
//! `specs/Handled.antt`, `specs/Called.antt` and `specs/Read.antt`, each event, with all that is carried; `specs/Kept.antt`, what leaves memory, and
//! what is for the disk, which is so behind a chunk that could not be read back too (`specs/Lost.antt`); `specs/Served.antt`, from the first
//! decision to where the turn may wait again, with what decisions and rounds rest on supplied (`specs/Supplied.antt`); and `specs/Again.antt`, the
//! next wait.
//!
//! What is carried beside: nobody waits for a row that memory was refused for, what each client is to be said first has room, and of what is dropped
//! as much is counted as came (`StandsGiven` of `specs/Supplied.antt`); which numbers connections get, and how many names are noted
//! (`specs/OverWaits.antt`); that what grew is noted where the keeping begins, and behind it nothing is to be kept up to the next event
//! (`specs/Grown.antt`); who was read, and what is read into (`specs/Whole.antt`). Of the program alone: clients stand in the order of their numbers
//! (`specs/Ordered.antt`), a life that went astray stays so (`specs/Straight.antt`), and the cache may have as many chunks as before, and so as
//! many as the settings say (`specs/Sized.antt`).
//!
//! `specs/First.antt` has all of the first turn, from where a life listens to the second wait, with its event and how often the outside failed before it
//! of `specs/Opening.antt`; `specs/Stopping.antt` all of the last: from its wait, over Stop (`specs/Stopped.antt`), to where the log may end.
//! `specs/Exits.antt`: each turn has its event, and where it ended the log may end. `specs/Turned.antt` has all turns, one behind the other, from where
//! a life listens to where the log may end: each event of each is taken.
//!
//! A life as one, from the log before it: `specs/Lives.antt`, where it serves, up to where the log may end, and `specs/Waking.antt`, whence it wakes:
//! to what a crash leaves of that log, and so of the law's disk (`specs/Left.antt`); `specs/Ended.antt`, where it does not come to serve.
//! `specs/Headline.antt` has what the laws say of the log behind it, and `specs/Running.antt` all of that as the clause of a function that runs the
//! program.
//!
//! Not said: anything of a life that went astray.
//!
//! To the layer above: each is the clause of a function that does nothing, but for `run_beside_the_law`. It is one part of the proof that the
//! program obeys the law.
//!
//! Takes no memory, and does nothing when the program runs.
#![tactic(auto)]

mod again; // and the next wait
mod coming; // an event, behind the wait
mod ending; // the last turn
mod first; // the first turn, to the second wait
mod going; // all of a turn
mod growing; // what grew
mod handling; // an event that is handled
mod keeping; // memory and the disk
mod living; // a whole life, and what its log means
mod lost; // a chunk that could not be read back
mod opening; // the first event
mod over; // from one wait to the next
mod reading; // an origin that is read
mod running; // `run` beside the law
mod serving; // decisions, rounds, and the end
mod sized; // how large the cache may be
mod staying; // a whole turn
mod stopping; // at Stop
mod straight; // the order of clients, and where a life did not go astray
mod turned; // all turns of a life
mod waiting; // to an event
mod waking; // what a crash leaves
mod ways; // out of a wait, and out of a life

pub use again::served_ones_wait_again;
pub use coming::events_are_awaited;
pub use ending::turns_stop;
pub use first::first_turns_go_on;
pub use going::turns_go_on;
pub use growing::what_grew_is_kept;
pub use handling::{calls_are_handled, loads_are_handled, silent_ones_are_handled};
pub use keeping::handled_ones_go_to_decide;
pub use living::{
    early_ends_are_lawful, lives_wake, served_lives_are_lawful, served_lives_have_the_headline,
};
pub use lost::lost_ones_go_to_decide;
pub use opening::{first_events_are_handled, openings_are_counted};
pub use over::{names_have_room_behind_waits, origins_are_apart_again};
pub use reading::origin_reads_are_handled;
pub use running::run_beside_the_law;
pub use serving::deciding_ones_serve;
pub use sized::turns_keep_size;
pub use staying::{next_waits_stand_beside, read_ones_stay_read};
pub use stopping::stopped_ones_end;
pub use straight::{astray_ones_stay_astray, clients_stay_ordered, straight_ones_were_straight};
pub use turned::{events_are_taken, lives_go_on};
pub use waiting::turns_wait;
pub use waking::crashes_leave_the_disk;
pub use ways::turns_have_events;
