//! What leaves memory, and what is noted of it, is what the law permits.
//!
//! Where the state of the program shows that of the law (`pp_states_law`), the rows that exchanges are bound to and the chunks in which
//! a next byte lies are the same in both (`specs/Pinned.antt`). From it follows that the notes of rows that left for others, and of
//! chunks that go down to the low mark, are permitted one behind the other, where they lead, that the state there is shown by the
//! program's, and that no more has to go.
//!
//! To the layer above: each is the clause of a function that does nothing, in the words of `pp_obeys`: `Leads` names the state that
//! they lead to. Nothing is said here of a turn in which memory was refused for a row. The words of the program stand in `pp_steps`,
//! which says of each function which it computes.
//!
//! Takes no memory, and does nothing when the program runs.
#![tactic(auto)]

mod leaving; // rows and chunks that leave memory
mod pinning; // what may not leave it

pub use leaving::what_leaves_is_permitted;
pub use pinning::pins_are_the_laws;
