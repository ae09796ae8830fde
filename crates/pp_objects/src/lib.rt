//! The rows of the cache by key, each with the bytes that are in memory of it, and the versions that
//! were replaced while somebody still reads them (RFC 7234, section 4; RFC 7233, section 4.3).
//!
//! An instance is one version of a key, known in part. The row of a key is the instance that is not
//! retired. When a row is replaced or cleared it is retired: it stays, with its chunks, until its
//! last follower leaves it, so that two versions are never mixed. Where nobody follows it, it is out
//! at once.
//!
//! To the layer above: a list of instances, the least recently used first, which agrees with the pool:
//! each used chunk is the chunk of exactly one place of one instance. `settle` takes all memory before
//! it changes anything; after a refusal all is as before.
//!
//! Only `new` and `settle` take memory. Which response makes a row is for `pp_answers`, which chunk goes
//! for `pp_evict`.
#![tactic(auto)]

mod choice; // which fields are kept, and which are renewed
mod id; // which instance is meant
mod index; // the rows by their keys
mod kept; // the fields of a row, and the room for a refresh
mod objects; // the instances, and the order of their use
mod renewal; // what a response renews
mod room; // how many bytes are renewed
mod row; // one instance
mod text; // fields in one text, with room for more

pub use id::ObjectId;
pub use objects::{Objects, RowView};
pub use pp_fresh::Times;
pub use pp_holes::Added;
