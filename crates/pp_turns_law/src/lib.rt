//! What a turn reads of its state is what the law reads, and what decisions and closings leave of it is what the law makes of it.
//!
//! Over the relation of `pp_states_law`, part by part. What is read:
//!
//! - `specs/Nexts.antt`, `Brings`, `Needs`, `Spans`, `Unseen`, `Sharing`: whether a follower's next byte is there or comes, what it asks
//!   for, what nobody will see, and whether an ask is another's. What is not on the disk is in memory.
//! - `specs/Turns.antt`, `Dues`: of one client, whether what it follows stands, what is at hand for it, what is decided of its request,
//!   and what is due of it. A decision counts the row of its key.
//! - `specs/Rows.antt`, `Firsts`, `Wants`, `Readers`: a kept row that comes into memory leaves what is due as it was; whose due comes
//!   first of all who are looked at, and that its row alone comes in; what is waited for of the clients, and what is read no further.
//! - `specs/Looks.antt`, `Marks`: who is looked at, and that the others are silent; who waits, and what a tick and a wait change with that.
//!
//! What decisions leave:
//!
//! - `specs/Decides.antt`, `Follows`, `Takes`, `Ways`: the row of its key is marked; the request leaves the exchange that it asked; a page,
//!   an ask, a response that is passed or a reply by the row is what is decided; any decision that is taken, as one; and the row that
//!   leaves memory before a decision that brings one in.
//! - `specs/Fills.antt`, `Useless`: followers ask for what is missing, one behind the other, and give up asks that are of no use.
//! - `specs/Regains.antt`, `Begins`: attempts count anew, and replies begin at the end of a turn, one behind the other, as by the law,
//!   where they do all at once.
//!
//! And what closings leave, over `specs/Sides.antt`, which has beside that relation what the state of a lawful log keeps of its connections
//! (`specs/Connections.antt`, `Log`, `Unread`, `Clients`, `Shuts`): a connection that is closed loses its line as the law has it, whatever
//! state it was in; an exchange that is over with its connection is what the law ends before it closes that; of a connection whose first
//! exchange nobody will see, that becomes of both; and a client that is closed leaves its exchange as the law says. Connections to
//! origins that are closing may be dropped one behind the other, as the log gets it.
//!
//! To the layer above: each equation is the clause of a function that does nothing. It is one part of the proof that the program
//! obeys the law: of a turn in which memory is refused for a kept row nothing is said here but that it is, and before what; and what is
//! asked of a turn is for the steps above. The words of the program stand in `pp_take`, `pp_steps` and `pp_desk`, which say of each
//! function which it computes.
//!
//! Takes no memory, and does nothing when the program runs.
#![tactic(auto)]

mod beginning; // replies begin
mod bringing; // what exchanges bring
mod clients; // a client is closed, and shut
mod closing; // a connection to an origin is closed, and dropped
mod deciding; // what is taken
mod dues; // what is due
mod filling; // followers ask
mod firsts; // which client comes first
mod following; // a reply by the row
mod looking; // who is looked at
mod marking; // who waits, and what changes with that
mod needing; // what is held of a span, and what a follower asks for
mod regaining; // attempts count anew
mod rows; // kept rows that come into memory
mod seeing; // what nobody will see
mod sharing; // one fetch for many
mod taking; // any decision, as one
mod unread; // what nobody will see is not read on
mod wants; // what is waited for
mod yielding; // the row that leaves memory before

pub use beginning::{replies_begin_as_the_laws, seats_begin_as_the_laws};
pub use bringing::brings_are_the_laws;
pub use clients::{clients_are_the_laws, closing_ones_are_shut_as_the_laws};
pub use closing::{closing_ones_are_dropped_as_the_laws, connections_are_the_laws};
pub use deciding::decisions_are_the_laws;
pub use dues::{
    dues_are_the_laws, offers_are_the_laws, requests_are_decided_as_the_laws, standing_is_the_laws,
    superseded_is_the_laws,
};
pub use filling::{all_fill_as_the_laws, one_fills_as_the_laws, useless_asks_are_the_laws};
pub use firsts::{first_due_is_the_laws, memory_is_given_or_refused};
pub use following::replies_are_the_laws;
pub use looking::others_are_silent;
pub use marking::{marks_are_the_laws, waiting_is_the_laws};
pub use needing::{needs_are_the_laws, spans_are_the_laws};
pub use regaining::attempts_count_as_the_laws;
pub use rows::{dues_stay_as_they_were, rows_come_in_as_the_laws};
pub use seeing::unseen_ones_are_the_laws;
pub use sharing::shared_asks_are_the_laws;
pub use taking::taken_ones_are_the_laws;
pub use unread::unseen_ones_are_dropped_as_the_laws;
pub use wants::{far_ahead_is_the_laws, wants_are_the_laws};
pub use yielding::rows_yield_as_the_laws;
