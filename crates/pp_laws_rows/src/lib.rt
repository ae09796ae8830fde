//! The words of the laws of `pp_law`, computed on worked logs, and what they refuse: of those crates of laws whose proof is dear, or
//! on which others stand.
//!
//! All of it is in `proofs/`. The other crates of laws have such rows of their own.
#![tactic(auto)]
