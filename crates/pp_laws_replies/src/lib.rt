//! What follows from the law of the proxy for each client's replies, in words that its readers use.
//!
//! `pp_law` says which happening may follow which. Here stands what every lawful log then means to a
//! client: what it is told is one whole reply to each of its first requests, in order, and then a front
//! of one more, and nothing behind a reply that closes; which row a reply is read from; and that such a
//! reply shows one version, each byte of its body at its place.
//!
//! To the layer above: each law is the clause of a function that does nothing. What leaves a lawful
//! log has each of them; that a program leaves one is not said here.
//!
//! Takes no memory, and does nothing when the program runs. That what is said was sent by an origin is
//! for `pp_laws`.
#![tactic(auto)]

mod replies; // what is said to each client
mod rows; // which row a reply is read from

pub use replies::{replies_are_in_order, replies_show_their_version};
pub use rows::{rows_are_fresh_or_checked, sources_are_of_the_key};
