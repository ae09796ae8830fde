//! The cache in memory: instances and their chunks, in agreement (RFC 7234, section 4; RFC 7233, section 4.3).
//!
//! `pp_objects` has the instances, `pp_pool` their chunks; here both stand behind one value, in which each used chunk is
//! the chunk of exactly one place of one instance. Beside them stands what the disk has to know: how far each instance is kept
//! there, which instances grew in this turn, and which entries stand for their rows no more.
//!
//! To the layer above: the value of a `Cache` is what it holds (`specs/Memory.antt`): its instances and their chunks, each in
//! the order of use, and what the disk has to know (`specs/OnDisk.antt`). Each call may name any instance, and does nothing for
//! one that is gone; what it does to instances and chunks is what `pp_objects` says (`specs/Changes.antt` there). A run of
//! chunks that was said is used in its order (`specs/Uses.antt`).
//!
//! The keys that a response names (`specs/Named.antt`; RFC 2616, sections 13.10, 14.14 and 14.30), and those that a turn has to
//! note, stand beside it. Which response makes a row is for `pp_answers`, which chunk goes for `pp_evict`.
#![tactic(auto)]

mod cache; // instances and their chunks, in agreement
mod extents; // how far each instance is kept on the disk
mod grown; // instances to which bytes joined in a turn
mod named; // keys that a response names
mod noted; // keys of rows that left memory
mod outdated; // names whose entry stands for its row no more

pub use cache::{CHUNK_LEN, Cache};
pub use named::{is_spelled_at, write_named};
pub use noted::Noted;
