//! A client with how far its current request is.
//!
//! A seat is a client, what it asks (its front), and where that stands: not decided, waiting for an exchange, or answered, and
//! how much of the reply was said.
//!
//! To the layer above: the next byte of a client that follows an instance (`specs/Follows.antt`), which of an instance's bytes
//! are said (`specs/Said.antt`), how often a request may lose an attempt, and what it is where its row is lost
//! (`specs/Courses.antt`; RFC 2616, section 8.1.4); what is kept of a head (`specs/Heads.antt`), and how far its request is
//! (`specs/Seats.antt`); what a decision makes of it (`specs/Decided.antt`); what is asked for it first (`specs/Fetches.antt`).
//! `specs/Dues.antt` says what is due to a client, by what a turn knows of the row of its key: that is for `pp_due`.
//!
//! A seat takes memory for the key of its request, and for the first line of it where the operator keeps a log
//! (`specs/Accounts.antt`). Where a request's head ends is for `pp_client`, what a request gets
//! for `pp_plan`, and what a turn makes of both for `pp_due` and `pp_take`.
#![tactic(auto)]

mod account; // what the operator's log is to say
mod asks; // what an origin is asked for a request
mod deciding; // what a decision makes of a client
mod due; // what is due to a client
mod front; // the current request of a client
mod key; // owned keys
mod limits; // heads within the limits
mod seat; // a client, and how far its request is

pub use account::{Account, Told, head_in};
pub use asks::{as_ask, fetch_of};
pub use due::Due;
pub use front::{Asked, Front, is_answerable};
pub use key::Key;
pub use limits::keeps_line_limits;
pub use seat::{Answer, Brought, Course, Next, Passed, PassedEnd, Seat, Shared, Stage};
