//! What is due to a client, and what is waited for.
//!
//! `first_due` finds the first client to whom a decision or a cut is due: with a decision the kept row that its request names comes
//! into memory. At a wait stands who is read and who is written to, who rests on the answer to another's ask, and what comes too far ahead.
//!
//! To the layer above: what is due first is that of `specs/Entering.antt`, by the causes of `specs/Due.antt` (RFC 2616, section
//! 8.1.4), and what a wait and a tick change that of `specs/Waits.antt`.
//!
//! What is decided is for `pp_decide`, what a decision does for `pp_take`, and what is kept on the disk for `pp_shelf`.
#![tactic(auto)]

mod due; // which decision or cut is due
mod kept; // rows that come from the disk
mod wants; // what is waited for of the clients

pub use due::first_due;
pub use kept::{bring_row_for, next_to_load};
pub use wants::{is_far_ahead, note_clients, renew_marks, rest_client};
