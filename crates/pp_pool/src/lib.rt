//! The memory of the cache: chunks of 4,096 bytes, and the order of their use.
//!
//! All of it is taken at once by `Pool::new`. Then chunks are taken for a place (an owner and an
//! index), filled from the front, touched and given back, and `oldest` names the one that was used
//! least recently. A `ChunkId` is the one handle of a used chunk: it can't be copied or made.
//!
//! To the layer above: a pool is the list of its used chunks, the least recently used first, each
//! with its number, place and bytes, and never more than its size. Each call is one change of that
//! list; no other chunk changes.
//!
//! Which chunks belong together, and when one has to go, is for `pp_holes` and `pp_evict`.
#![tactic(auto)]

mod chunk; // the handle of a used chunk
mod pool; // the slots, and the chunks in them
mod ring; // the order of use, as links

pub use chunk::ChunkId;
pub use pool::{CHUNK_LEN, Pins, Pool};
