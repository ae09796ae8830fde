//! How the exchanges of the program stand for those of the law.
//!
//! `specs/Tables.antt` is the relation: the value of a `Flow` shows the exchanges and lines of `pp_law`, in the words of both (that
//! one entry shows one exchange is said in `pp_seats_law`). From it follows that what the program reads of its exchanges is what the
//! law reads of its own: how many there are, the one with a number, whether it has a place, that of a client, the next without a
//! place, and what stands in a line; and that what a call leaves of them shows what the law's own function makes of its own. Each
//! life of the program has a number of the law, whichever that is: the relation takes these numbers first, and keeps them.
//!
//! To the layer above: each equation is the clause of a function that does nothing. It is one part of the proof that the program
//! obeys the law: of clients, rows, pipes and turns nothing is said here. The words of the program stand in `pp_flow`, which says
//! of each call which it computes.
//!
//! Takes no memory, and does nothing when the program runs.
#![tactic(auto)]

mod beginning; // one more, or none yet
mod changing; // one that is changed where it stands
mod ending; // one that is over, or is left at a decision
mod framing; // what they stand on, and what is no part of them
mod placing; // one that gets a place, or loses it
mod reading; // what is read of them

pub use beginning::{beginnings_are_the_laws, begins_are_the_laws};
pub use changing::{
    asks_are_the_laws, bytes_are_the_laws, errands_are_the_laws, heads_are_the_laws,
    leaves_are_the_laws, notes_are_the_laws,
};
pub use ending::{asks_begin_as_the_laws, decisions_leave_as_the_laws, ends_are_the_laws};
pub use framing::{connections_are_the_laws, frames_are_the_laws};
pub use placing::{puts_are_the_laws, unplaces_are_the_laws};
pub use reading::{
    askers_are_the_laws, counts_are_the_laws, lines_are_the_laws, nexts_are_the_laws,
    places_are_the_laws,
};
