//! What a lawful log asked on each connection, as one stream: the asks of its line, one behind the other,
//! to the host that it was dialled to.
//!
//! `pp_law` says which happening may follow which. Here stands what follows for all that was asked on a
//! connection, joined: whole asks, each the text of an exchange of that line and the body of its request,
//! and then the front of one more; and that each exchange of a line is for the host and port that its
//! connection was dialled to, and to no other.
//!
//! To the layer above: each law is the clause of a function that does nothing. That the bytes of a body
//! are those that its client sent is not said here: `pp_laws_asks` says it of each piece.
//!
//! Takes no memory, and does nothing when the program runs.
#![tactic(auto)]

mod lines; // the asks of a line, joined, and where they go

pub use lines::{asks_are_one_stream, lines_go_to_their_hosts};
