//! What follows from the law of the proxy, in words that its readers use.
//!
//! `pp_law` says which happening may follow which. Here stands what every lawful log then means: what
//! origins sent is never forgotten, what is there has a number of its own, and each byte that is in
//! memory, or is said from there to a client, was sent by an origin, for that key, at that offset,
//! under that version.
//!
//! To the layer above: each law is the clause of a function that does nothing. What leaves a lawful
//! log has each of them; that a program leaves one is not said here.
//!
//! Takes no memory, and does nothing when the program runs. What stands on the disk is for a law of
//! its own: here it is a premise that what is read back was sent.
#![tactic(auto)]

mod numbers; // numbers of clients, connections, exchanges and instances
mod origin; // where bytes come from

pub use numbers::numbers_are_distinct;
pub use origin::{held_bytes_were_sent, said_bytes_were_sent, sent_only_grows};
