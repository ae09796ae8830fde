//! What each decision of a turn rests on is there: of each that is found, from what stands in the turn, and from what the log allows.
//!
//! `RestsOn` of `pp_deciding_law` lists it, and `specs/Rests.antt` says that it is so. An ask has memory, as few exchanges are under way; a
//! decision for want of memory brings no row in; what is no head was not decided before; no exchange is nobody's and nowhere; no more than
//! 64 bodies that belong to rows come; the row that has to leave did not come in this turn; and each kind of decision has what it asks for: a
//! page that there is, its room and a client who may get it, an ask whose text fits, a reply by a row that was not followed before.
//!
//! Two laws over logs stand beside it. `Late`: from the first row on that came in this turn few rows stand, so that none of these is the
//! least recently used one that is idle. `Heads`: what is no head is refused with a status that there is a page of.
//!
//! `specs/Closing.antt`: closings may come wherever memory was refused for no row that is waited for.
//!
//! Not said: that the count of exchanges does not end at 2^64, which `IsMoment` has as a premise of the life.
//!
//! To the layer above: each is the clause of a function that does nothing. It is one part of the proof that the program obeys the law. The
//! words of the program stand in `pp_due`, `pp_decide`, `pp_take` and `pp_steps`, which say of each function which it computes.
//!
//! Takes no memory, and does nothing when the program runs.
#![tactic(auto)]

mod closing; // closings
mod keeping; // what each lawful log leaves
mod resting; // a decision is found

pub use closing::closings_may_come;
pub use keeping::{few_rows_are_used_behind_new_ones, what_is_no_head_has_a_page};
pub use resting::what_decisions_rest_on_is_there;
