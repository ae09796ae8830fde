//! The disk of the program is that of the law.
//!
//! `ShowsShelf` (`specs/Shelf.antt`) says how the map of the shelf stands for the law's entries and closed names. From it follows, call
//! by call, that each operation may come where it comes, up to one that failed; that they lead where the law leads; and that the map
//! that the store has behind the call shows the law's state: an entry is taken away, a run is sealed, an entry is drafted, a chunk is
//! read back. The law's disk is what the log tells of the folder (`specs/Folder.antt`).
//!
//! To the layer above: each is the clause of a function that does nothing. What `Leads` of `pp_obeys` names is written out, so that
//! what stands beside the disk is seen to stay. `specs/Joined.antt` has what the calls of a turn add to the log, each with its note, and
//! where that leads. The operations of each call stand in the contracts of `pp_store`.
//!
//! Takes no memory, and does nothing when the program runs.
#![tactic(auto)]

mod calling; // calls of the disk, in a log that goes on
mod drafting; // the entry of a row is drafted
mod fields; // the fields of entries
mod folder; // the disk of the law
mod keeping; // what is kept of a key
mod loading; // a chunk is read back
mod opening; // the entries of a folder
mod sealing; // a run of a row is sealed
mod taking; // an entry that is taken away
mod working; // operations that a call runs

pub use calling::{calls_of_the_disk_are_counted, turns_of_the_disk_lead_on};
pub use drafting::what_is_drafted_is_the_laws;
pub use fields::{entries_stay_as_kept, fields_that_are_read_are_kept};
pub use folder::the_disk_is_the_logs;
pub use keeping::what_is_kept_is_the_laws;
pub use loading::what_is_loaded_is_the_laws;
pub use opening::{recovery_is_permitted, repairs_are_permitted, what_is_found_is_the_laws};
pub use sealing::what_is_sealed_is_the_laws;
pub use taking::what_is_taken_away_is_the_laws;
pub use working::operations_are_permitted;
