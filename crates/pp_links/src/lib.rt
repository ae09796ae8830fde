//! The connections that are open, so that whoever holds them may name any number.
//!
//! `Links` keeps the number of each connection that was accepted or dialled and is not closed, with
//! whose it is, and makes the calls of the world. On a number that is not open no call is made:
//! nothing happens, and a read or a write answers `None`.
//!
//! To the layer above: `IsLinked` holds behind each call where it held before. Where the log is told,
//! every connection of the list is open in it, on that side; none has a number above those that were
//! given, and none stands there twice. Each call adds to the log what the world's own does, or
//! nothing. `next` alone waits, and behind its event comes nothing but the closing of a client for
//! whom there is no room.
//!
//! Takes the memory for 512 connections at once. How many clients and origins there may be, what they
//! are sent, and when one is closed, is for the layer above.
#![tactic(auto)]

mod calls; // the calls of the world, on connections that are open
mod links; // the connections that are open

pub use links::{Links, MAX_LINKS};
