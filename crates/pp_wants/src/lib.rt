//! What a turn waits for, so that nobody waits on nothing, and what a wait changes (ours).
//!
//! The clients come first, as they were at the last wait but for those that were looked at; behind them each connection that is to be
//! read or written.
//!
//! To the layer above: what is waited for is that of `specs/Awaited.antt`, and a wait changes clients, exchanges and connections as
//! `specs/Rests.antt` says.
//!
//! What is waited for of clients is for `pp_due`, and the wait itself for `pp_links`.
#![tactic(auto)]

mod wants; // what is waited for

pub use wants::{note_wants, rest};
