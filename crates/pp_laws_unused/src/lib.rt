//! What the law has of a life that has not begun to serve: nothing yet.
//!
//! `specs/Unused.antt` has the statement. In its opening a life reads its words, its settings and its folder, and listens: nobody is
//! there, nothing is asked, and nothing is in memory. So the memory that the program begins with stands for that of the law.
//!
//! To the layer above: one law, the clause of a function that does nothing, of each state that a lawful log may go on as from. What the
//! program has then stands in `pp_opening_law`.
//!
//! Takes no memory, and does nothing when the program runs.
#![tactic(auto)]

mod unused; // before the first wait

pub use unused::nothing_is_there_yet;
