//! Simulated lives: from a number, clients and origins that do anything, and what the proxy did.
//!
//! `simulate` makes lives of a seed: the words of each, a script of clients, origins and ticks, which calls fail, and where
//! the life crashes. It runs the program over them, in a world in memory. What happened can be
//! read as a transcript, which the law then judges: the rows of some seeds are proved, and `transcripts/judge` tries others.
//!
//! `demo_lives` has the lives of the program's demo in the same form.
//!
//! To the crates above: a seed gives the same lives always, as long as the proxy does the same. Numbers and quoted texts are for
//! their tests, which stand in `pp_exchanges`, so that what is here is proved once.
//!
//! What a world does is for `pp_memworld`.
#![tactic(auto)]

mod dice; // numbers of a seed
mod late; // origins that answer late, and otherwise than before
mod lives; // how a life is started, what happens outside, and where it ends
mod quoting; // a text as a transcript quotes it
mod scripts; // clients and origins that do anything
mod simulation; // the lives of a seed, run
mod spelling; // a happening as a line of a transcript
mod texts; // what clients ask, and origins answer

pub use dice::Dice;
pub use lives::Term;
pub use quoting::quoted;
pub use simulation::{Simulation, demo_lives, simulate};
