//! Whose response comes on a connection: that of the first exchange of its line, whose text was asked whole before. And of whom all is
//! answered: of nobody who is not closing.
//!
//! `pp_laws_lines` shows how the line of each connection stands to what was asked there, along a lawful log. Here stands what follows of the
//! response that comes there, also amid a turn: each phase that is done keeps it. `pp_laws_served` shows the same of those who send no more.
//!
//! To the layer above: the laws are clauses of functions that do nothing, of states that a lawful log may go on as from (`pp_obeys`).
//!
//! Takes no memory, and does nothing when the program runs.
#![tactic(auto)]

mod answers; // whose response comes
mod finished; // of whom all is answered

pub use answers::answers_are_to_firsts;
pub use finished::nobody_is_finished;
