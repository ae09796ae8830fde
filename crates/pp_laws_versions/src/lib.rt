//! The law: a row in memory, and the entry on the disk that stands for it, are of one version; and of a chunk that is kept there all is in
//! memory, or nothing.
//!
//! Both are known under a key. A response of another version makes another row, and clears the key before: what was the row is retired, and its
//! entry is stale. A row is drafted under a name that no entry has, and comes in from the entry that stands for it. While a draft is on its way
//! to the disk no response is read.
//!
//! A run is sealed of whole chunks, and a draft begins with all of the body, or nothing. Chunks leave memory whole, and come back from the disk
//! as long as they are there. What an origin brings joins behind the extent, or where some of its chunk is there already.
//!
//! `specs/Versions.antt` and `specs/Wholes.antt`: so it is in each state that a lawful log may go on as from.
//!
//! To the layer above: each is the clause of a function that does nothing. So the extent of the entry is one of the body of the row.
//!
//! Takes no memory, and does nothing when the program runs.
#![tactic(auto)]

mod versions; // rows and their entries
mod wholes; // chunks that are kept

pub use versions::rows_are_of_the_version_of_their_entries;
pub use wholes::kept_chunks_are_whole_in_memory;
