//! Nobody is stuck: where a turn may end, everybody is served.
//!
//! `pp_laws_ends` shows who is served by the wants of the law where it is known of him that he is there,
//! may send, or has what he waits for. Here this is taken from the states of the law: who has no request
//! has room for one and did not hang up; and of whoever was decided for nothing that is due leaves one
//! who waits on nothing. Followers ask for each next byte that is not there and does not come, and what
//! is done with connections behind that leaves it so. The wants of a program are others: whoever may send
//! may be read, so it is shown which wants are as good.
//!
//! To the layer above: each law is the clause of a function that does nothing. What is missing for a turn
//! to end wherever it may are facts of the states, none of which speaks of what is due: they stand in one
//! record, `IsLeft`.
//!
//! Takes no memory, and does nothing when the program runs.
#![tactic(auto)]

mod served; // who is served where a turn may end, and by which wants

pub use served::{
    as_good_ones_serve, decided_ones_are_provided_for, ends_are_ready, followers_ask, turns_end,
    who_may_ask_is_served,
};
