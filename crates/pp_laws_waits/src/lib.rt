//! Nobody waits on nothing: whom everybody waits for where a turn of a lawful log ends.
//!
//! `pp_law` says what has to stand in the wants. Here stands what that means: each client is written
//! to, is read, or waits for an exchange that is there; each exchange stands in the line of a
//! connection, or has none to go to; and each connection is dialled, stands in the wants, or is held
//! back by a client that is written to. So waits form no ring. What is held is asked for by nobody.
//!
//! To the layer above: each law is the clause of a function that does nothing. What leaves a lawful
//! log has each of them; that a program leaves one is not said here, nor that the poller ever names
//! anybody who is wanted.
//!
//! Takes no memory, and does nothing when the program runs.
#![tactic(auto)]

mod held; // what is held is not asked for
mod waits; // whom everybody waits for

pub use held::{held_bytes_are_not_asked, hits_ask_nothing};
pub use waits::{exchanges_are_placed, no_waits_form_a_ring, nobody_waits_on_nothing};
