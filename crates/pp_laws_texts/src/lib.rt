//! How long the lines of a row are, and a head that is made from it, in each state that a lawful log may go on as from.
//!
//! Those that last have 16,384 bytes at most, and those that a later response renews 2,048 (`pp_valid`, `pp_objects`), so the lines of each
//! row have room in a head. It is one instance of what `pp_laws_fields` keeps of each row, in memory and on the disk.
//!
//! To the layer above: two laws, the clauses of one function that does nothing.
//!
//! Takes no memory, and does nothing when the program runs.
#![tactic(auto)]

mod texts; // the lines of a row

pub use texts::lines_have_room;
