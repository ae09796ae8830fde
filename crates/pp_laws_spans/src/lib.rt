//! Which bytes of a version the body of a response brings: those of its span, and no more.
//!
//! A response that has a version tells how long its body is, and which part of that version it is. So the span that is to come of it
//! begins and ends within the version, and however its bytes are cut, no more data are read of it than the span has.
//!
//! To the layer above: two facts of heads and bodies alone, the clauses of one function that does nothing. That an exchange is bound to the
//! span of its own response from the head to the end is not said here.
//!
//! Takes no memory, and does nothing when the program runs.
#![tactic(auto)]

mod spans; // the span of a response

pub use spans::bodies_stay_within;
