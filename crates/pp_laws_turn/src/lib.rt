//! What holds in each state that a lawful log may go on as from, also amid a turn.
//!
//! The laws of `pp_laws` and those above it are of the states that the fronts of a lawful log lead to. A program
//! that shows that it obeys the law stands beside states some phases on (`Obeys` of `pp_obeys`): of these the same
//! holds, and more, which each step of the law keeps. What a client follows is there, an exchange is for a client
//! that goes on, at that very request, and of one without a place nothing was asked.
//!
//! To the layer above: one law, the clause of a function that does nothing. `proofs/` has for each piece of the law,
//! as a client that is closed or asks that are given up, that it keeps what is kept.
//!
//! Takes no memory, and does nothing when the program runs.
#![tactic(auto)]

mod turns; // what holds amid a turn

pub use turns::turns_are_sound;
