//! What follows from the law of the proxy for what origins sent: it stands in what came on their connections.
//!
//! `pp_law` puts on record what each origin sent, for which key, at which offset and under which version.
//! Here stands that each of these bytes is a part of the data of a response, as the readers of heads and
//! bodies find it in the joined bytes of a connection, which was dialled to the host and port of the key of
//! each exchange that was asked there; and that a response that is passed to a client is the one with
//! which all that came on its connection ends, while it comes. Of the response that comes on a connection
//! less came than on the connection, as its head came before.
//!
//! To the layer above: the law is the clause of a function that does nothing. What leaves a lawful log
//! has it; that a program leaves one is not said here.
//!
//! Takes no memory, and does nothing when the program runs.
#![tactic(auto)]

mod stands; // what was sent and what is passed, in the log

pub use stands::{
    asks_go_to_their_hosts, bodies_are_less_than_came, passed_is_one_whole_response,
    passed_stands_in_the_log, sent_stands_in_the_log,
};
