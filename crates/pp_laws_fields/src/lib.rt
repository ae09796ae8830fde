//! What is known of each row, in memory and on the disk, in each state that a lawful log may go on as from.
//!
//! The fields of a row are those that are kept of a response of its version, so what is drafted comes back into memory as it was; and its
//! body has 2^30 bytes at most, so each of its chunks has a number. `proofs/` shows it of anything that holds of what is kept of responses
//! and entries, and stays so behind a later response (`Closed`).
//!
//! To the layer above: one law, the clause of a function that does nothing. How many bytes the lines of a row have is not said here.
//!
//! Takes no memory, and does nothing when the program runs.
#![tactic(auto)]

mod fields; // fields, and the lengths of bodies

pub use fields::kept_ones_stay_kept;
