//! What one client sends and is said (RFC 2616, sections 5 and 6): step 1 of a turn, on the clients' side.
//!
//! One call reads or writes once: what came is read as a request, what is at hand is offered, and replies that are over end. Where the
//! next byte is on the disk alone, its chunk is read before.
//!
//! To the layer above: what a read and a write change and what the log gets of them is that of `specs/Talking.antt`; over the
//! read of a chunk what the shelf promises of the disk holds on.
//!
//! Which client it is, and when, is for `pp_proxy`; what a reply is made of for `pp_client`; how it ends for `pp_desk`.
#![tactic(auto)]

mod hearing; // what a client sends and is said
mod kept; // chunks that come from the disk

pub use hearing::hear;
pub use kept::load_and_say;
