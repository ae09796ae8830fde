//! Where a turn closes connections and asks its exchanges is where the law does.
//!
//! All that are closing leave the log's connections, one behind the other (`specs/Closings.antt`). `specs/Around.antt` is the relation
//! behind them: that of `pp_turns_law`, with the connections that are open and the greatest number that was given. From it follows that
//! an exchange without a place gets the law's: on a line, where the law puts it without a happening; on a connection that is dialled for
//! it; or behind one that gives way. What the log gets then may come, and leads to a state that is shown. One behind the other, the turn
//! goes from one that waits to the next, and the law through all: where none is left, the law goes on where the turn does. Where a dial
//! is refused (`specs/Refusals.antt`), its exchange is asked elsewhere, or is over, and followers ask at once for what is missing then.
//!
//! To the layer above: each equation is the clause of a function that does nothing. It is one part of the proof that the program
//! obeys the law: nothing is said here of a turn in which memory was refused for a row. The words of the program stand in `pp_desk`
//! and `pp_places`, which say of each function which it computes.
//!
//! Takes no memory, and does nothing when the program runs.
#![tactic(auto)]

mod all; // all that wait
mod closing; // all that are closing
mod placing; // one exchange gets its place
mod refusing; // a dial is refused

pub use all::all_places_are_the_laws;
pub use closing::closing_ones_leave_as_the_laws;
pub use placing::{
    connections_are_dialled_as_the_laws, connections_give_way_as_the_laws, places_are_the_laws,
};
pub use refusing::refused_dials_are_the_laws;
