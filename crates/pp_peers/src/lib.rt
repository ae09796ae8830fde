//! Which connection an ask goes to (RFC 2616, sections 8.1.2.2 and 8.1.4).
//!
//! `Peers` are the connections to origins that are there, each one record with its pipe. `place` says where the
//! next ask for a host goes: to a connection that carries nothing, to a new one while the host has
//! few, else, where the limits let asks be pipelined, behind those of one that may be.
//!
//! To the layer above: a list of connections in the order in which they were dialled, each with the
//! line of its pipe, and the place is that of `specs/Placing.antt`. A connection that is closing is in
//! the list, and one of the 64, until it is closed.
//!
//! Only `Peers::new` takes memory, that of all 64 pipes. What goes through a pipe is for `pp_pipe`.
#![tactic(auto)]

mod peers; // the connections that are there
mod placing; // where an ask goes
mod searches; // the best of some connections

pub use peers::{HOST_ROOM, Load, PEERS, Peer, Peers};
pub use placing::{Limits, Placed};
