//! How the state of the program stands for that of the law, part by part, what a change of one part leaves of all, and what the steps of
//! a turn cost.
//!
//! `specs/States.antt` is the relation: the seats show the clients, the exchanges those of the law, the cache the table, and the
//! connections those of the law, by one map of lives to the law's numbers. The laws of each part stand in a crate of its own; here a
//! change of one part is a change of the whole: a client is changed, an exchange, or the row of a key, and the other parts are shown
//! as before. What goes over a connection changes several at once: an exchange gets a place, its text and its request's body are
//! asked, and its response comes and is whole.
//!
//! `specs/Steps.antt` is that relation with the order of the clients. From it follows that what an exchange costs its request is what
//! the law says, an attempt, or all, and the row of a hole that nobody fills (`specs/Charges.antt`, `Told`); and that an exchange whose
//! connection is gone is over, or asked elsewhere, as the law has it (`Losses`, `Lines`).
//!
//! To the layer above: each equation is the clause of a function that does nothing. It is one part of the proof that the program
//! obeys the law: nothing is said here of a turn in which memory was refused for a row. The words of the program stand in `pp_state` and
//! `pp_steps`, which say of each function which it computes.
//!
//! Takes no memory, and does nothing when the program runs.
#![tactic(auto)]

mod asking; // bytes are asked on a connection
mod asks; // what connections depend on
mod charging; // what an exchange costs its request
mod clients; // one client is changed
mod conns; // one connection is changed
mod deciding; // a request leaves its exchange, and asks another
mod dialling; // a connection is dialled, and one is dropped
mod ending; // a response is whole
mod exchanges; // one exchange is changed, or is over
mod losing; // exchanges whose connection is gone
mod placing; // an exchange gets a place
mod reading; // what comes on a connection is read
mod rows; // a row is cleared
mod turning; // how a turn begins
mod waiting; // who is waited for

pub use asking::{bodies_are_the_laws, texts_are_the_laws};
pub use asks::frames_are_the_laws;
pub use charging::charges_are_the_laws;
pub use clients::changes_are_the_laws;
pub use conns::{closings_are_the_laws, connections_are_the_laws};
pub use deciding::decisions_are_the_laws;
pub use dialling::dials_are_the_laws;
pub use ending::responses_end_as_the_laws;
pub use exchanges::{ends_are_the_laws, leaves_are_the_laws};
pub use losing::losses_are_the_laws;
pub use placing::puts_are_the_laws;
pub use reading::{gots_are_the_laws, readings_are_the_laws};
pub use rows::clears_are_the_laws;
pub use turning::{touches_are_the_laws, turns_begin_as_the_laws};
pub use waiting::waits_are_the_laws;
