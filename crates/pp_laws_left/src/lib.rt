//! What a turn leaves of replies, of what is said and passed, and of places where no head is, in each state that a lawful log may go on
//! as from, and in that in which a turn ends.
//!
//! To the layer above: laws, each the clause of a function that does nothing. Of `IsLeft` of `pp_laws_served` they give each field where a
//! turn may end, so that nothing is left to be shown of it (`LeftIsWhole`, `TurnsLeaveAll`) and some wait is permitted. Of `MayEnd` they give that the last happening
//! left the turn before its end.
//!
//! Takes no memory, and does nothing when the program runs.
#![tactic(auto)]

mod left; // what a turn leaves of replies, of what is said and passed, and of places where no head is

pub use left::{
    bodies_are_owned, bodies_stay_owned, ends_are_filled, ends_are_left, ends_are_to_pass,
    happenings_end_no_turn, senders_are_there, turns_are_left, turns_are_owned, turns_are_spoken,
    turns_can_wait, turns_leave_all, unseen_bodies_go,
};
