//! What computes a state of the law to its end, so that the rows of long logs are computed in pieces.
//!
//! All of it is in `proofs/`, and written by `transcripts/make_rows`.
#![tactic(auto)]
