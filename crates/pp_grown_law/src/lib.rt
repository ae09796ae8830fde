//! What is noted for the disk and what is full is done with, behind the keeping of a turn.
//!
//! `specs/Noted.antt`: memory notes no name and no instance any more. `specs/Kept.antt`: each entry of the shelf has the fields that are
//! kept of them still. `specs/Left.antt`: no instance has a run that is full behind what is kept of it, which `pp_keeps_law` asks for of
//! each turn where its keeping begins, but for those that grew in it; and none comes to have one where nothing is brought behind what is kept
//! (`specs/Less.antt`), as where memory is left (`specs/Leaving.antt`), and where rows come and go (`specs/Rows.antt`).
//!
//! From there on: decisions, rounds and the wait bring nothing (`specs/Settled.antt`), where each exchange has a number of its own
//! (`specs/Numbered.antt`), and neither does an event but for the read of an origin (`specs/Handled.antt`), which notes each instance to which
//! bytes come (`specs/Reads.antt`). `specs/Grown.antt` has all of it from one keeping to the next: where that begins, each instance that has more
//! to keep is noted as grown; and `specs/Turns.antt` joins a turn.
//!
//! Of the program alone: how many chunks the cache may have stays as it was set, over each of these pieces (`specs/Sized.antt`).
//!
//! Takes no memory, and does nothing when the program runs.
#![tactic(auto)]

mod behind; // behind all that is taken away and kept
mod coming; // rows that come and go
mod growing; // from one keeping to the next
mod leaving; // what leaves memory
mod sizing; // how large the cache may be

pub use behind::{kept_stays_as_kept, none_is_left, nothing_is_noted};
pub use coming::rows_bring_nothing;
pub use growing::{
    events_bring_nothing, reads_note_grown, settlings_bring_nothing, turns_keep_all,
    what_grew_is_noted,
};
pub use leaving::leavings_bring_nothing;
pub use sizing::sizes_stay;
