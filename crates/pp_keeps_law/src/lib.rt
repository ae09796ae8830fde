//! What is kept on the disk in a turn leads where the law leads.
//!
//! `specs/Stands.antt` is what a turn shows of the disk amid its keeping: the shelf the law's entries, the cache its table, and which
//! names are outdated. From it follows that the same run of a body is full in both (`specs/Runs.antt`); that what is planned for a row
//! the law lets begin (`specs/Plans.antt`); and, step by step, that each happening may come where it comes, and leads to a state in
//! which the turn stands so again (`specs/Keeps.antt`): an entry is taken away, a row is drafted, a run is sealed, or one of them
//! fails. One behind the other (`specs/All.antt`), they lead to where nothing is left to do for the disk, so that the law's phase may
//! be left.
//!
//! To the layer above: each is the clause of a function that does nothing, over what `keep` of `pp_keeping` says it does. All that is not
//! of the disk is as it was. Not said: that the instances of which a run is due are among those that the cache notes as grown, which is a
//! premise. No loop of the keeping ends at its bound with anything left, so that nothing is asked of whether this life went astray.
//!
//! Takes no memory, and does nothing when the program runs.
#![tactic(auto)]

mod removing; // entries that stand no more
mod running; // runs of a body, and what is planned for a row
mod turning; // all that is taken away and kept in a turn
mod writing; // the next run of an instance

pub use removing::takings_lead_on;
pub use running::{plans_are_the_laws, runs_are_the_laws};
pub use turning::keepings_lead_on;
pub use writing::runs_lead_on;
