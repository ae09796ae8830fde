//! What is kept on the disk, and taken away: step 3 of a turn.
//!
//! What stands no more is noted as gone, and its entry taken away; of what grew in this turn the first run is drafted, small bodies
//! whole, and each full run behind it is sealed.
//!
//! To the layer above: over all of it what the shelf promises of the disk holds on, the open connections stay, and what is done on
//! the disk, in memory and in the log is that of `specs/Keeping.antt`: of each name as `specs/Kept.antt` says, and of each run as
//! `specs/Runs.antt` says.
//!
//! How an entry is written is for `pp_shelf`, and which bytes are in memory for `pp_cache`.
#![tactic(auto)]

mod disk; // calls of the disk in a turn
mod keeping; // what is kept on the disk, and taken away
mod plan; // how much is to be kept next, and its bytes
mod run; // a run of chunks that is kept

pub use keeping::keep;
