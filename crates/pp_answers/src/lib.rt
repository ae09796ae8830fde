//! What the head of a response does: to the row of its key, to the client that asked, and to the rows that it outdates.
//!
//! `take_head` takes the final head of a response. One that answers an ask of its own makes, renews or clears the row of its key; one
//! that fills a hole joins the instance, where it is of its version; one that is passed goes on as it is, and clears what it outdates.
//!
//! To the layer above: what becomes of clients, exchanges and rows is said as a whole (`specs/FinalHeads.antt`), and each rule stands
//! in a function that decides it alone (`specs/Heads.antt`; RFC 2616, sections 10.3.5, 13.10 and 14.9, RFC 7234, section 4.3.3;
//! RFC 7233, sections 4.1 and 4.3).
//!
//! What is kept of a response is for `pp_objects`, where it ends for `pp_pipe`, and the bytes behind the head for `pp_steps`.
#![tactic(auto)]

mod answers; // what the head of a response does
mod outdated; // rows that a passed response outdates
mod rows; // what a response does to the row of its key

pub use answers::take_head;
