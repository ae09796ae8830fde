//! Tests of the crates that all others stand on: each of their public functions once, as it is compiled.
//!
//! What they answer is proved, and worked examples are rows of their definitions, in each crate's `proofs/Rows.antt`. Here
//! is seen that the program does what was proved of it: a table a subject, and one call that says in words which row goes
//! otherwise than wanted. To prove a test is dear, so the rows of a subject share one, and what plays them is proved once.
#![tactic(auto)]

#[cfg(test)]
mod asks; // what an origin is asked
#[cfg(test)]
mod bodies; // the bodies of messages
#[cfg(test)]
mod connections; // which connection to an origin an ask goes to
#[cfg(test)]
mod fields; // the fields of a head
#[cfg(test)]
mod heads; // heads, targets and ranges
#[cfg(test)]
mod pipes; // one connection to an origin
#[cfg(test)]
mod settings; // words and a text
#[cfg(test)]
mod saying; // where a table goes otherwise than wanted
#[cfg(test)]
mod texts; // numbers, lists and owned bytes
