//! Where exchanges are asked: steps 5 and 6 of a turn (RFC 2616, sections 8.1 and 8.1.4).
//!
//! What nobody will see is not read on. Behind all closings each exchange without a place gets one where there is one, in the order of
//! their beginnings: on a line, on a connection that is dialled for it, or on one behind another that gives way.
//!
//! To the layer above: places are those of `specs/Placing.antt`, one behind the other, with each dial and its answer; what
//! nobody will see leaves its line as `Origins` of `pp_desk` says.
//!
//! Which connection would do is for `pp_peers`, whether anybody will see an exchange for `pp_state`.
#![tactic(auto)]

mod dialling; // an exchange that needs a new connection
mod placing; // places of exchanges
mod unseen; // what nobody will see is not read on

pub use placing::place;
pub use unseen::drop_unseen;
