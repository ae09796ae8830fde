//! The memory that the proxy begins with is that of the law.
//!
//! `specs/Openings.antt` has what the law's state has of a life before its first event, and how the settings of the program stand for
//! those of the law.
//!
//! To the layer above: each equation is the clause of a function that does nothing. It is one part of the proof that the program
//! obeys the law. The words of the program stand in `pp_desk` (`Opening`), which says what a new desk has; what the disk is then stands in
//! `pp_shelf_law`.
//!
//! Takes no memory, and does nothing when the program runs.
#![tactic(auto)]

mod opening; // the memory, before the first event

pub use opening::openings_are_the_laws;
