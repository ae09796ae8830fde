//! Worked logs of `transcripts/`, each with the law's verdict, which the check computes.
//!
//! All of it is in `proofs/`, and written by `transcripts/make_rows`.
#![tactic(auto)]
