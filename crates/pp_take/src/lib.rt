//! What a decision that is taken does, and what followers ask for.
//!
//! `take` gives a page, begins an exchange with its ask, or has the reply follow the row. `fill` has each follower ask for the bytes
//! that are not there and do not come, and begins an exchange for them.
//!
//! To the layer above: what is left of clients, exchanges and the cache is that of `specs/Deciding.antt` (RFC 2616, sections 13 and
//! 14), what followers ask for that of `specs/Filling.antt` (RFC 7233, sections 3.2 and 4.3), which asks are given up that of
//! `specs/GivingUp.antt`, and what becomes of a refused dial that of `specs/Unplaced.antt`.
//!
//! What is decided is for `pp_decide`, what is written for `pp_ask` and `pp_reply`, and on which connection an exchange goes for
//! `pp_peers`.
#![tactic(auto)]

mod deciding; // what a decision does
mod filling; // step 5: what followers ask for
mod place; // what becomes of an exchange that gets no place

pub use deciding::{afforded, take};
pub use filling::{fill, give_up_asks};
pub use place::refuse_dial;
