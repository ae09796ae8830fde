//! Lawful logs with one happening deleted, doubled or swapped, each with the law's verdict.
//!
//! All of it is in `proofs/`, and written by `transcripts/make_rows`.
#![tactic(auto)]
