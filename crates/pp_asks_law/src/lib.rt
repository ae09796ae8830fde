//! What rounds rest on, beside what stands: each part from where it comes.
//!
//! `pp_rounds_law` takes decisions, closings, places, what followers ask for, and the replies that begin, to where the law leads, where some
//! more holds at each step than the turn shows of the law's state. Here that is shown of followers (`specs/Asks.antt`), of dials that are refused
//! (`specs/Dials.antt`) and of replies that begin (`specs/Begins.antt`), beside a log that obeys the law, from the laws over logs.
//!
//! `specs/Rests.antt` and `specs/Begins.antt` have what is left to rest on, each with a word on where it comes from: memory was refused for no row,
//! the shelf shows the law's entries, no count ends at 2^64, and what the types of buffers say. What of it stays through the steps of a round is in
//! `specs/Stays.antt`.
//!
//! The one idea: as exchanges end, attempts are lost and places are given, clients keep their requests and their replies, and no row and no entry
//! comes (`proofs/Narrow.antt`, `proofs/Along.antt`). So what is known of the state that the log goes on as from is known of those amid a step.
//!
//! To the layer above: each is the clause of a function that does nothing. It is one part of the proof that the program obeys the law.
//!
//! Takes no memory, and does nothing when the program runs.
#![tactic(auto)]

mod asking; // what followers ask for
mod beginning; // replies that begin
mod dialling; // dials that are refused
mod staying; // and what stays of it

pub use asking::followers_may_ask;
pub use beginning::replies_may_begin;
pub use dialling::{dials_may_be_gone_without, few_numbers_are_given};
pub use staying::memory_is_refused_for_no_row;
