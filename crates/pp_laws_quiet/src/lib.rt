//! Happenings that are none of the disk leave what is on it.
//!
//! What is read and written, closed and dialled, decided and forgotten changes rows in memory, connections and exchanges. Of the disk it
//! changes one thing: an entry may be stale from then on. Which entries there are, in which order, how far each reaches, which names are
//! closed and what is begun stay as they were; and so do the settings.
//!
//! To the layer above: one law, the clause of a function that does nothing. It stands over the walk of `pp_laws_crash`, and is of states that a
//! lawful log may go on as from (`pp_obeys`), also amid a turn.
//!
//! More keys may be displaced by it, as a row that is cleared takes the name of another's entry; of each there is an entry still. Where the
//! clock did not tick either, it stands as it did (`specs/Steady.antt`).
//!
//! Takes no memory, and does nothing when the program runs.
#![tactic(auto)]

mod quiet; // what is none of the disk

pub use quiet::quiet_happenings_leave_the_disk;
