//! How much is still to come of a response whose body belongs to an instance.
//!
//! Its next offset is at its end at the latest, and no version has more than 1 GiB; whatever bytes follow of the response, they bring
//! no more data than are still to come.
//!
//! To the layer above: facts of each state that a lawful log may go on as from, the clauses of one function that does nothing. That what
//! is to come ends within the instance that is bound, wherever that is in memory, is not said here.
//!
//! Takes no memory, and does nothing when the program runs.
#![tactic(auto)]

mod brought; // what is still to come

pub use brought::no_more_comes_than_is_to_come;
