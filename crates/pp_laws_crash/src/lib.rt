//! What a crash leaves of the folder, and what is read back from it.
//!
//! `pp_law` says which happening may follow which, on the disk as elsewhere. Here stands what every
//! lawful log then means for it: whatever a crash may leave behind the log, each byte that an entry
//! keeps was sent by an origin, for that key, at that offset, under that version. So what is read back
//! was sent, and what `pp_laws` says of memory and of what is said needs no premise.
//!
//! To the layer above: each law is the clause of a function that does nothing. What leaves a lawful
//! log has each of them; that a program leaves one is not said here.
//!
//! Takes no memory, and does nothing when the program runs. That what was acknowledged is found again
//! is for `pp_laws_found`.
#![tactic(auto)]

mod crash; // what a crash leaves, and what is read back

pub use crash::{each_image_is_backed, held_bytes_were_sent, said_bytes_were_sent};
