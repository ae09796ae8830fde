//! What the head of a response tells of rows, in the program and in the law.
//!
//! Where an exchange of the program shows one of the law (`ShowsExchange` of `pp_seats_law`), each rule by which `pp_answers` judges
//! the head of its response is the law's: whether it answers an ask of its kind, its version and its times, whether it clears the row of
//! its key, joins it or takes its place, and what a response that is passed outdates. The span that comes, and what
//! a 304 says of a row, is for `pp_answers_law`.
//!
//! To the layer above: each equation is the clause of a function that does nothing. What is made of clients, exchanges and rows by
//! these rules is not said here.
//!
//! Takes no memory, and does nothing when the program runs.
#![tactic(auto)]

mod rules; // what is read of a head

pub use rules::{asks_are_the_laws, heads_are_the_laws, rows_are_the_laws};
