//! Which entries are kept on the disk, and the names that are closed after a fault.
//!
//! An entry is kept under the file name of its key. It is published with none of its body or all of it,
//! and then extended by whole chunks, from the first on. What is kept can be read back. After an operation
//! on a name that failed, nothing is known of what stands under it: it is closed for the rest of the life,
//! and its key is not kept. A draft that failed touched no name.
//!
//! To the layer above: a list of kept entries and a list of closed names, in which each name stands at
//! most once. Where the log is told, each kept entry is on the disk (`Holds` of `specs/Held.antt`): one
//! file stands under its name, through a crash too, with its head block, its first gates open as far as
//! the extent goes and no others, and only bytes that were sent. Each call says which operations it ran,
//! and what a crash in the midst of it leaves: where each entry that may be left in the folder held only
//! bytes that were sent, it does so at each moment (`IsBacked`). `promises_last` says what all this outlasts.
//!
//! `new`, `keep`, `found` and `close` take memory, before they touch the disk. An entry is found by its name
//! in steps that grow with the logarithm of their number; to take one out takes time in their number.
//! Which responses are kept is for `pp_keeping`, what an earlier life left is for `pp_recover`.
#![tactic(auto)]

mod extending; // more of a body
mod faults; // why an entry is not kept, or not read
mod keeping; // a new entry
mod lasting; // what the promises outlast
mod loading; // a chunk of a body
mod places; // at which place of a list each name stands
mod row; // one entry in memory
mod rows; // the entries, found by their names
mod store; // the entries and the closed names
mod text; // a key and fields in one text
mod withdrawing; // an entry that is kept no more

pub use faults::{KeepFault, LoadFault};
pub use lasting::promises_last;
pub use row::KeptView;
pub use store::Store;
