//! Where the bytes of a response go: what they leave of the program shows what they leave of the law.
//!
//! What the steps of a turn change stands for the state of the law as `pp_states_law` has it. From it follows that bytes which join an
//! instance, or go into the pipe of a client, and the end of a response with its exchange and its connection leave what the law makes
//! of its own state.
//!
//! To the layer above: each law is the clause of a function that does nothing. It is one part of the proof that the program obeys
//! the law: what the program does with a response is said in `pp_steps`, and what is put on record as sent, the log alone tells.
//!
//! Takes no memory, and does nothing when the program runs.
#![tactic(auto)]

mod joining; // bytes that join an instance
mod passing; // bytes that are passed to a client

pub use joining::{delivers_are_the_laws, joins_are_the_laws};
pub use passing::{finishes_are_the_laws, pours_are_the_laws};
