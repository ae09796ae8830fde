//! What is in memory of one instance: a finite map from offset to byte, with holes (RFC 7233).
//!
//! An instance is cut into chunks of 4,096 bytes. Its `Cells` hold, for each chunk, the chunk's
//! handle in the pool and how much of it is filled, and no byte; so a chunk in memory holds a front
//! of its bytes. Bytes are added in any order: one joins where it begins a chunk or follows an
//! offset in memory.
//!
//! To the layer above: cells that agree with a pool are with it a map from offset to byte. Each call
//! keeps the agreement, changes the chunks of the pool as `specs/` says, in the order of use, and
//! leaves every chunk of another owner as it is.
//!
//! Only `Cells::new` takes memory. Which chunks go is for `pp_evict`, whose cells these are for
//! `pp_objects`.
#![tactic(auto)]

mod cell; // a chunk that is in memory
mod cells; // the chunks of one instance
mod hole; // what is missing
mod join; // bytes that join

pub use cells::Cells;
pub use join::Added;
