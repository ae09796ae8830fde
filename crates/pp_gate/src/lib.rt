//! The calls that change an entry on the disk: published with none of its body or all, sealed by runs of
//! chunks, removed.
//!
//! A chunk is vouched for by a byte of its own, its gate, that is opened only after the chunk was
//! synced. So whatever a power cut leaves of a file is an entry that holds only what it was given.
//!
//! To the layer above: each call runs exactly the operations that `specs/Gate.antt` lists, or a front
//! of them and one that failed. At every moment of a call, also in the middle of an operation, a
//! crash leaves under the name the file from before or the new one, and every other name is as it was.
//! An entry has no byte that was not sent, and none behind its body.
//!
//! Takes no memory. Which entries there are, and what becomes of a name that failed, is for `pp_store`.
#![tactic(auto)]

mod publishing; // a new entry under a name
mod removing; // no entry under a name
mod sealing; // chunks behind those that are kept

pub use publishing::{PublishFault, publish};
pub use removing::remove;
pub use sealing::seal;
