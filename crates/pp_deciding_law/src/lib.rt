//! What is due in a turn is found and taken as the law permits it and leads on, and the turn stands behind it as before it.
//!
//! `specs/Stands.antt` has what a turn shows amid decisions, and that where nothing is found nothing is due by the law. `Takes` and `Behind`
//! join one decision: what `first_due` of `pp_due` finds is due in the law; the row that gives way leaves before it by a note that is
//! permitted, and its own note is permitted behind that; both lead to one state of the law, which the turn shows once `take` of `pp_take` is
//! done and attempts count anew; and there the turn stands as before, for the next one. `Cuts` joins one cut in the same way.
//!
//! Not said: what a decision rests on beside what stands, as `RestsOn` lists it, each with its source; a turn in which memory is refused
//! for a row; all decisions of a turn, one behind the other; and what follows them.
//!
//! To the layer above: each is the clause of a function that does nothing. It is one part of the proof that the program obeys the law. The
//! words of the program stand in `pp_due`, `pp_steps`, `pp_take` and `pp_desk`, which say of each function which it computes.
//!
//! Takes no memory, and does nothing when the program runs.
#![tactic(auto)]

mod cutting; // a cut is found
mod finding; // nothing is found
mod taking; // a decision is found, and taken

pub use cutting::{cuts_lead_as_by_the_law, turns_stand_behind_cuts};
pub use finding::nothing_is_due_as_by_the_law;
pub use taking::{decisions_lead_as_by_the_law, turns_stand_behind_decisions};
