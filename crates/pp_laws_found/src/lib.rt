//! What was acknowledged is found again: no crash loses it.
//!
//! `pp_law` says which happening may follow which, and `pp_laws_crash` that what a crash leaves was
//! sent. Here stands that it is also there: where a lawful log notes last of a key that so much of
//! its body was kept, each image of the folder that a crash may leave has the entry of that key and
//! version, and it reaches at least as far; so the life that begins with it has that row. And an
//! image has few files.
//!
//! To the layer above: each law is the clause of a function that does nothing. What leaves a lawful
//! log has each of them; that a program leaves one is not said here.
//!
//! Takes no memory, and does nothing when the program runs.
#![tactic(auto)]

mod counts; // how many files the folder has
mod found; // what was acknowledged is there

pub use counts::files_are_few;
pub use found::{acknowledged_is_found, acknowledged_is_recovered};
