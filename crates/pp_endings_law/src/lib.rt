//! What ends amid a turn, and the turn itself, is what ends by the law.
//!
//! `specs/Replies.antt` says of which clients the replies are over, which of them are closed, and who goes on to the next request: several at
//! once where one read brought the ends of several. `specs/Idle.antt` says of which connections to origins the clock ends the patience. The
//! relation is that of `pp_turns_law`.
//!
//! To the layer above: each equation is the clause of a function that does nothing. It is one part of the proof that the program
//! obeys the law: nothing is said here of a turn in which memory was refused for a row. The words of the program stand in `pp_desk`,
//! which says of each function which it computes.
//!
//! Takes no memory, and does nothing when the program runs.
#![tactic(auto)]

mod gone; // connections that ended, or broke
mod idle; // connections that are idle
mod replies; // replies that were said whole
mod waits; // what is waited for, and what a wait changes

pub use gone::ended_ones_are_gone_as_the_laws;
pub use idle::idle_ones_are_closed_as_the_laws;
pub use replies::replies_end_as_the_laws;
pub use waits::{
    exchanges_rest_as_the_laws, instances_rest_as_the_laws, origins_are_asked_as_the_laws,
    origins_are_read_as_the_laws,
};
