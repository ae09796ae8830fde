//! The exchanges with origins that are under way, and what each is bound to (RFC 2616, section 8.1.2.2).
//!
//! An exchange is a request of this proxy to an origin and its response. It waits for a place, then
//! stands in the line of a connection, whose responses come in the order of the line. Once its final
//! head has come it may be bound to an instance, and then its body's bytes belong there. It is asked by
//! the current request of a client, until that leaves it. Its errand is what it asks, how much of that was asked, and what becomes
//! of the body that it brings (`specs/Errands.antt`). Its text, which `pp_ask` writes, stands with it from its beginning.
//!
//! To the layer above: two lists of exchanges, those without a place in the order of their beginnings,
//! and those with one in the order in which they got it, and how many were begun. Each call does to
//! them what `specs/Changes.antt` says.
//!
//! Only `Flow::new` takes memory: the room for all exchanges that there may be, and their keys and
//! texts. Which place an exchange gets is for `pp_peers`, what its bytes are for `pp_objects`.
#![tactic(auto)]

mod entry; // an exchange, what it asks, its key and its text
mod errand; // what an exchange asks, and how much of it was asked
mod flow; // the exchanges that are there
mod lists; // a list of exchanges

pub use entry::{Aim, Entry, Exchange};
pub use errand::{Body, Errand, Kind};
pub use flow::{EXCHANGES, Flow};
