//! Which chunk goes where room is made: the least recently used one that is not pinned.
//!
//! A chunk is pinned where a client's next byte or an exchange's next byte lies in it. `make_room`
//! evicts one chunk a call, until so few are used as the floor says; its caller notes each victim.
//!
//! To the layer above: just the victim's bytes are out, in the pool and in its instance, and all else
//! is as before.
//!
//! Takes no memory. When room is to be made is for `pp_steps`.
#![tactic(auto)]

mod room; // one victim

pub use room::{Victim, make_room};
