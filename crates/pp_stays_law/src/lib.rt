//! What stands in a turn beside what it shows stands behind each step of its decisions and rounds.
//!
//! `specs/Turns.antt` has it: memory was refused for nobody; what each client is to be said first has room; of what is dropped as much is
//! counted as came; and the shelf shows the law's entries, of which those that stand no more are noted by their names. For these there is
//! room (`specs/Names.antt`): a name more is noted only of a key that a client or an exchange has, and no step brings in another. `specs/Steps.antt`
//! has the steps: a decision, a cut, nothing found, what is done without a word, closings, and places, where dials may be refused
//! (`specs/Dials.antt`). `specs/Laws.antt` joins both, one by one and in all, with where it begins and what follows for what is kept.
//!
//! Where the program alone changes something, its functions are walked once for whatever holds of each client, each exchange and what is in
//! memory (`proofs/Walk.antt`), and so are the law's (`proofs/Law.antt`). As exchanges get their places both are walked together
//! (`proofs/Joint.antt`), as a loss may clear a row, by its hole, in both.
//!
//! A log that obeys the law has no more failures than there may be (`specs/Afforded.antt`): so each dial of it that `pp_rounds_law` affords may
//! be refused, where it leads.
//!
//! Not said: that it stands behind an event, and that each dial may be refused.
//!
//! To the layer above: each is the clause of a function that does nothing. `pp_rounds_law` asks for it through decisions and rounds.
//!
//! Takes no memory, and does nothing when the program runs.
#![tactic(auto)]

mod affording; // failures, in a lawful log
mod kept; // what is noted of the disk
mod seats; // of each client
mod standing; // all of it

pub use affording::what_is_lawful_is_afforded;
pub use kept::{
    entries_stay_noted, kept_ones_are_the_laws, names_have_room, names_keep_their_room,
};
pub use seats::{nobody_is_refused, texts_keep_their_room};
pub use standing::{decisions_leave_counts, turns_stand_through_decisions_and_rounds};
