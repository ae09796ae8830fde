//! The law of the proxy: which logs of happenings it may leave.
//!
//! A log is read by a machine. `specs/State.antt` is the record of what it says so far, `after`
//! takes that over one happening, and `is_permitted` tests what may happen next. A log is `Lawful`
//! where each of its happenings is permitted; `first_fault` names the first that is not, and the rule
//! that it breaks. All of it computes, so that worked logs are evaluated as they stand.
//!
//! To the layer above: the definitions alone. What a leaf crate defines is cited from there: heads,
//! targets, bodies, ranges, versions, freshness, decisions, texts, places, entries, files.
//!
//! Takes no memory, and does nothing when the program runs. What follows from the law is for the
//! crates above it.
#![tactic(auto)]

mod laws; // laws of the definitions themselves

pub use laws::prefixes_and_faults;
