//! From the first decision of a turn to its end a turn leads where the law leads.
//!
//! `specs/Decisions.antt`: from a log that obeys the law, beside a turn that stands amid decisions (`pp_deciding_law`), all that `decide` of
//! `pp_proxy` says it takes, one behind the other, is permitted, leads to one state, and leaves the turn standing so.
//!
//! A round is what a turn does behind decisions, until none comes any more: what nobody sees is dropped, asks that bring nothing are given up,
//! followers ask, connections that are over are closed, exchanges get their places, and then decisions come again. `Stands` has what stands
//! beside the law's state through all of it, `Steps` and `InRounds` join it step by step, and `Rounds` is the round: from a state in which
//! nothing is due to one in which nothing is due, over the phases that are done and the happenings that come. `Supplies` lists what that rests
//! on beside what stands, each with its source or that there is none yet: whatever holds from step to step supplies it, beside a log that obeys
//! the law, of so many happenings at most, what stands, and that this life does not go astray by the step. `Coming` is how the log goes on,
//! which joins over happenings and over phases that are done, and from which what stands is kept.
//!
//! A dial may be refused wherever the places of a round come to (`Dials`), as often as the outside may fail: an attempt is lost, and where its
//! exchange is over, those that are looked at are so still, what each follows is there, the cache is bounded (`Bounds`), and there is room for
//! what followers ask. So places lead from a log that obeys the law (`Led`). `pp_asks_law` has what followers and refusals rest on, in logs of
//! fewer happenings than counts end at.
//!
//! `Loops`: rounds, one behind the other, lead to where nothing is due behind a round that decided nothing. `Ends`: there the law lets a turn
//! wait, and replies that begin show what the law has at its end; `Serves` joins both. `Stops`: at Stop all clients and then all origins leave
//! the log's connections, one behind the other, and the log may end. The program neither drops what nobody sees nor gives up asks then, and the
//! law does both: of it all who is there alone is shown. `Settles`: behind the disk a turn decides, and then serves so, or stops.
//! What holds from step to step holds where the last round ended, and replies begin from there (HasServedWith of `Serves`).
//!
//! Decisions, each step of a round, rounds and all behind them, and a stop lead so where this life did not go astray by their end: it does where
//! one is left behind the 65,536 that there may be in one go. What went astray stays so (`Astray`).
//!
//! The clauses take what holds from step to step as a test of a turn and a state. For whatever holds so, lemmas say the same, to be cited by
//! other crates: `decides_all` (`proofs/Decisions.antt`), `rounds_lead` (`Round`), `loops_lead` (`Loops`), `serves_lead` (`Serves`),
//! `settles_lead` (`Settled`) and `stops_lead` (`Stopped`).
//!
//! Not said: a client for whom there was no memory, which is cut before the first decision; and a turn in which memory was refused for a row
//! before its decisions: of theirs it was not, where this life did not go astray.
//!
//! To the layer above: each is the clause of a function that does nothing. It is one part of the proof that the program obeys the law.
//!
//! Takes no memory, and does nothing when the program runs.
#![tactic(auto)]

mod amid; // the decisions of a round
mod bounding; // the cache is bounded where a dial is refused
mod deciding; // all decisions
mod ending; // replies begin
mod going; // the steps of a round, and all of it
mod keeping; // what is come to is kept
mod leading; // places lead, whatever dials answer
mod looping; // rounds, one behind the other
mod refusing; // dials, wherever places come to
mod serving; // and replies begin
mod settling; // from the first decision on
mod staying; // what went astray
mod stopping; // all are closed

pub use amid::decisions_of_a_round_are_the_laws;
pub use bounding::refused_dials_leave_the_cache_bounded;
pub use deciding::all_decisions_lead_as_by_the_law;
pub use ending::turns_end_as_the_laws;
pub use going::{
    closings_of_a_round_are_the_laws, followers_of_a_round_are_the_laws,
    places_of_a_round_are_the_laws, rounds_lead_as_by_the_law,
};
pub use keeping::what_is_come_to_is_kept;
pub use leading::places_lead_where_dials_are_refused;
pub use looping::loops_lead_as_by_the_law;
pub use refusing::dials_may_be_refused;
pub use serving::turns_serve_as_by_the_law;
pub use settling::{turns_settle_as_by_the_law, turns_stop_as_by_the_law};
pub use staying::lives_stay_astray;
pub use stopping::stops_are_the_laws;
