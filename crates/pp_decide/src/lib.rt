//! What is decided for a request, and whether it waits for what another has asked already.
//!
//! `decide` asks `pp_plan`, by the row of the request's key and by what its exchange brought; what is decided has to fit into an ask.
//! A request waits once, and for so many seconds, for the answer to another's fetch of the same key.
//!
//! To the layer above: the decision is that of `specs/Decide.antt` (RFC 2616, sections 13 and 14; RFC 6585, section 5), and how long
//! one waits for another that of `specs/Patience.antt`. Nothing is changed here.
//!
//! When a decision is due is for `pp_due`, and what it does for `pp_take`.
#![tactic(auto)]

mod decided; // what is decided for a request
mod share; // one fetch for many

pub use decided::{decide, if_fits, kind_of, write_text};
pub use share::{due_undecided, is_sharing, may_share, shared_ask};
