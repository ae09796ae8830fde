//! What is kept on the disk of each key, as long as it may come into memory, is what the law has of it.
//!
//! `specs/Kept.antt`: the shelf shows the law's entries (`pp_shelf_law`), and the cache notes by their names those that stand no more
//! (`pp_cache_law`). From both follows, where no entry has a closed name, what `pp_deciding_law` and `pp_turns_law` ask for of what is kept.
//! And a turn that shows the law's state shows it behind its keeping (`specs/Turns.antt`), as `pp_keeps_law` leaves it.
//!
//! Not said: that the shelf shows the entries, and that no entry has a closed name, which is so between a failed operation and its note
//! alone; `pp_keeps_law` carries both through the keeping of a turn.
//!
//! Takes no memory, and does nothing when the program runs.
#![tactic(auto)]

mod coming; // what may come in
mod staying; // a turn behind its keeping

pub use coming::{what_is_kept_may_come_in, what_stands_no_more_is_noted};
pub use staying::turns_are_shown_behind_keepings;
