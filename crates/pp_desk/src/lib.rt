//! What the steps of a turn share: the clients, the exchanges, the cache and the connections to origins, and what is closed.
//!
//! A `Desk` is the memory of the proxy, taken once. A connection is never closed where its cause comes: it is marked, what it
//! stood for is left or lost at once, and `close_over` closes all that are marked, each once, clients before origins. Replies that
//! were said whole are over, and the next request of their client stands (RFC 2616, sections 8.1 and 8.1.4).
//!
//! To the layer above: each method says of the desk before and behind it exactly what it changes (`sides` of
//! `specs/Closings.antt`), that all else stays (`KeepsDesk`), and what the log gets.
//!
//! Which event brings a cause, and in which order the steps are made, is for `pp_proxy` and the crates of its steps.
#![tactic(auto)]

mod access; // the operator's log
mod close; // connections that are over, and what is taken out of their lines
mod desk; // clients, origins and the cache, behind the connections
mod marks; // from when on who is silent counts as idle
mod opening; // the memory of the proxy
mod replies; // replies that are over

pub use desk::{Desk, MAX_CLIENTS, READ_LEN};
