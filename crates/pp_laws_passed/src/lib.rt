//! What follows from the law of the proxy for a reply that is passed on: it is one response's, and all that came of it.
//!
//! `pp_law` says which happening may follow which. Here stands what every lawful log then means for a
//! response that is passed to a client: as long as its exchange is asked or answered, what comes behind
//! the head that the client was told is of that response, and of no other; and it is all the data that came, in
//! their order.
//!
//! To the layer above: the law is the clause of a function that does nothing. What leaves a lawful log
//! has it; that a program leaves one is not said here.
//!
//! Takes no memory, and does nothing when the program runs.
#![tactic(auto)]

mod passed; // one response for a reply, and all that came of it

pub use passed::{passed_is_all_that_came, passed_is_one_response};
