//! The entry of a version on the disk: its head block, and how much of its body is kept.
//!
//! The head block has 8,192 bytes: a response head with the key, the times and the length of the
//! body in fields of this proxy's own, and zeros behind it. The gates follow, one byte a chunk of
//! 4,096 bytes, and then the body. A chunk counts once its gate, and each gate before it, is 0x01.
//!
//! To the layer above: each entry has one spelling. `write_head` writes it, `read_head` reads it back,
//! and answers None for every block that is not the spelling of an entry (`specs/Entries.antt`). Which
//! entries can be written is said in `specs/Spelling.antt`; `entries_have_one_spelling` is that law.
//!
//! Takes no memory. When an entry is written, and in what order, is for `pp_gate`.
#![tactic(auto)]

mod allowed; // which fields an entry may have
mod entry; // what a head block says
mod gates; // how much of the body is kept
mod lines; // a text behind another, as far as there is room
mod own; // the lines of this proxy's own
mod places; // where the fields stand in a head block
mod read; // from a head block to what it says
mod spelling; // one spelling for each entry
mod text; // the text of a head block
mod write; // from an entry to its head block

pub use allowed::are_allowed;
pub use entry::{Entry, Scratch};
pub use gates::{extent, has_extent};
pub use lines::{HEAD_LEN, TooLong};
pub use read::read_head;
pub use spelling::entries_have_one_spelling;
pub use text::body_at;
pub use write::write_head;
