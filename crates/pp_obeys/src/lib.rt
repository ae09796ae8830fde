//! How a program shows that it obeys the law: its log goes on by what is permitted, and by phases
//! that are done.
//!
//! `Obeys` stands between a log and a state of the law: the log is lawful, and may go on as from that
//! state, which is the one that it leads to, or one some phases on. The laws of this crate take it on:
//! over a happening that the state permits, and over a phase that is done, which no happening shows.
//!
//! To the layer above: these laws are the clauses of functions that do nothing. `proofs/Happenings.antt`
//! has, for each happening, what permits it and where it leads. `Keeps` is the contract of a call of the
//! world, with the failures that the outside counts: `calls_keep_the_law` says what it is good for, and
//! `proofs/Calls.antt` has what shows it. `Leads` is of several happenings, one behind the other, and names
//! the state that they lead to, so that laws of its parts can be joined; `Adds` is the contract of calls
//! that add them, and `proofs/Adding.antt` makes a `Keeps` of both.
//!
//! Takes no memory, and does nothing when the program runs.
#![tactic(auto)]

mod going; // how a log goes on
mod keeping; // what the contract of a call is good for

pub use going::{
    failures_are_counted, phases_are_left, silent_steps_go, what_is_permitted_goes_on,
};
pub use keeping::{added_ones_keep_the_law, calls_keep_the_law};
