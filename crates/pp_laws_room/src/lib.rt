//! How much room for chunks a turn leaves.
//!
//! `pp_laws_pool` says that the critical mark is never exceeded. Here stands how far below it the chunks are in each state that a lawful
//! log may go on as from, also amid a turn: where an event is awaited, and from the disk on, there is room for 32 more; and for 31 as long
//! as what an event is owed is not read or written. So each piece of one read finds a chunk.
//!
//! To the layer above: one law, the clause of a function that does nothing.
//!
//! Takes no memory, and does nothing when the program runs.
#![tactic(auto)]

mod room; // below the critical mark

pub use room::turns_leave_room;
