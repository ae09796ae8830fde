//! What is kept of the cache on the disk, behind calls that may name any key.
//!
//! `Shelf` holds the store of entries. Each call asks first whether the store may be asked so: whether the key is kept,
//! whether an entry can be written of what is given, whether bytes are whole chunks behind those that are kept. Exactly where
//! it may not, nothing happens, and `None` is answered; so the layer above names what it has, and knows nothing of the format.
//!
//! To the layer above: what the store promises of the disk (`Holds`, `Covers` and `IsBacked` of `pp_store`) holds on over each
//! call; where a call was made, the map changes as the store says by its answer, and the log gains nothing but operations and
//! a file that could not be read (`GrowsOnDisk` of `specs/Steady.antt`).
//!
//! Which response is kept, and when, is for `pp_keeping`; the order of writes is for `pp_gate`.
#![tactic(auto)]

mod drafting; // a new entry
mod loading; // a chunk is read back
mod opening; // a folder becomes a shelf
mod sealing; // more of a body
mod shelf; // the entries
mod withdrawing; // an entry is taken away
mod writable; // whether an entry can be written of a row

pub use shelf::Shelf;
pub use writable::can_be_written;
