//! Worked exchanges, and the program played against them over a world in memory.
//!
//! An `Exchange` writes down what clients and origins do, and what the program is to do: the bytes that each of them is
//! sent, the dials, the course of each connection. `unlike` plays it twice, with each text whole and with every byte alone,
//! and says in words where it went otherwise. `unlike_when_cut` plays one for many clients, one behind the other: the origin
//! is lost behind each of its bytes, and what the client was said must be a lawful reply or a front of one.
//!
//! To the crates above: a test is a table and one call. Proving a test is dear, so all that they share stands here and is
//! proved once.
//!
//! What is played, and the texts that are wanted, are for them.
#![tactic(auto)]

mod coding; // the chunked coding, as the proxy spells it
mod course; // what the log tells of one connection
mod cuts; // origins that are lost behind each byte
mod exchanges; // what is played, and what is wanted of it
mod fitting; // whether a text is a reply, or a front of it
mod folder; // what the log tells of the folder
mod playing; // acts, and the program played against them
mod texts; // the texts that most exchanges are made of

pub use course::{Step, named_step};
pub use cuts::{Cut, unlike_when_cut};
pub use exchanges::{
    Exchange, Sizes, Wanted, unlike, unlike_at, unlike_by, unlike_through_windows, unlike_with,
};
pub use fitting::{Fit, Part, fit_of};
pub use folder::{Filed, Op, op_of};
pub use playing::{
    Act, PACES, Pace, Played, WORDS, boxed, first_life, next_life, play, play_over, play_with,
};
pub use texts::{
    ASK, ASK_B, GET, GET_B, HEAD, HEAD_B, PAGE_400, PAGE_411, PAGE_431, PAGE_502, PASSED, REPLY,
    REPLY_B, REPLY_HELD, RESPONSE, RESPONSE_B, T, asking, joined, joined_acts, with_repeated,
};
