//! Which connections are open: those of the law's state; and how far its counts get.
//!
//! A log tells of each connection that it was accepted or dialled, and that it was shut or dropped; a life begins with none. The law's state
//! has clients and connections by their numbers. Here stands that the two agree, behind each happening and also amid a turn: one whose cause
//! to be closed has come is still open, and one that was shut or dropped is neither there nor open.
//!
//! Each happening, with the phases that it goes through, begins few exchanges, brings few rows, and ends few replies: so a log that is not too
//! long takes no count to its end.
//!
//! To the layer above: each law is the clause of a function that does nothing, of states that a lawful log may go on as from (`pp_obeys`). Of the
//! first follows who an open connection is, and that a program which keeps a list of open ones, each once, keeps no more than the state has
//! clients and connections.
//!
//! That a list has all that are open is for its owner: no law of logs tells it.
//!
//! Takes no memory, and does nothing when the program runs.
#![tactic(auto)]

mod counts; // how far counts get
mod sides; // whose each connection is

pub use counts::{
    counts_are_far_from_their_ends, exchanges_are_counted, requests_are_counted, rows_are_counted,
};
pub use sides::{
    links_are_few, numbers_come_once, numbers_rise, open_ones_are_there, sides_are_the_laws,
};
