//! A line of the operator's log for a reply, in the common log format.
//!
//! `put_line` writes the client's address, two hyphens, the time, the first line of the request, the status and the bytes of
//! the body, as the log of the first servers of the web had them, and behind them what the reply was made of and how many
//! milliseconds it took.
//!
//! To the layer above: what is written is `line_text` of `specs/Lines.antt`. What is not printable in a request's line is
//! escaped as the Apache HTTP Server does, so that a line is one line whatever a client sent.
//!
//! Takes memory for the line alone. Where it is written is for `pp_net`.
#![tactic(auto)]

mod line; // a line of the log

pub use line::{Line, put_line};
