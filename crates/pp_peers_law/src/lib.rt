//! How a connection of the program stands for a connection of the law.
//!
//! `specs/Peers.antt` is the relation: a connection of `pp_peers`, with its pipe, shows the connection of `pp_law`, part by part,
//! in the words of both; and all show all, one each, in the order in which they were dialled. From it follows that what the program
//! says that a connection carries is what the law says, that the next ask goes to the place that the law gives it, that what is
//! left to ask stands in the pipe, and that the pipe shows what the law makes of the line where bytes of a text are asked, where an
//! exchange comes to it, and where its first is over. And what comes is read as the law reads it: the pipe reads step by step, and
//! the law piece by piece, the heads behind those of interim responses, the bodies, and what the end of the connection makes of
//! one (`specs/Comes.antt`).
//!
//! To the layer above: each equation is the clause of a function that does nothing. It is one part of the proof that the program
//! obeys the law: of clients, rows and turns nothing is said here, nor of what a response does. The words of the program stand in
//! `pp_peers` and `pp_pipe`, which say of each call which it computes.
//!
//! Takes no memory, and does nothing when the program runs.
#![tactic(auto)]

mod asking; // what is asked on a connection
mod coming; // what comes on it
mod lines; // what becomes of a line
mod placing; // where an ask goes

pub use asking::{asks_are_the_laws, lines_are_the_laws};
pub use coming::{
    awaited_is_the_laws, bodies_are_the_laws, endings_are_the_laws, heads_are_the_laws,
};
pub use lines::{ends_are_the_laws, puts_are_the_laws};
pub use placing::{loads_are_the_laws, places_are_the_laws};
