//! Of exchanges and their clients: what each tells of the other, in each state that a lawful log may go on as from.
//!
//! Before the head of its response comes nothing is passed to the client of an exchange, and where that is for what the
//! request asks itself, the client waits for it, and was brought nothing. As long as the exchange is there, more of what
//! is passed is to come. An exchange that is nobody's and has no place is one of a follower, and behind the phase
//! in which asks are given up there is none, up to the end of the turn.
//!
//! To the layer above: one law, the clause of a function that does nothing. It stands over `pp_laws_turn`, by the same
//! walk; `proofs/` has for each piece of the law that it keeps what is kept, for who stands amid one.
//!
//! Not said: that the exchange of each response that is passed stands first on its connection (`pp_laws_passed` has it).
//!
//! Takes no memory, and does nothing when the program runs.
#![tactic(auto)]

mod coming; // what is passed is to come

pub use coming::what_is_passed_is_to_come;
