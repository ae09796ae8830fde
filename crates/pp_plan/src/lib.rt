//! What a request gets: the decision for it, by the row of its key (RFC 2616, section 13; RFC 7232;
//! RFC 7233).
//!
//! `decide` is a table of fifteen lines, of which the first that applies counts. `span` says which
//! bytes of a version the reply shows, `need` which of them have to be asked for before it can go
//! on, `is_near` what an exchange brings soon enough, and `fetch_range` what is asked where nothing is
//! known.
//!
//! To the layer above: the decision is that of `specs/Decision.antt`, whose lines are those of the
//! table and of the code; each span lies within the body, and a need begins at or before the byte
//! that is wanted.
//!
//! Takes no memory. Refusals of requests that cannot be read, and when a decision is due, are for
//! others.
#![tactic(auto)]

mod table; // the table
mod fetched; // what is asked where nothing is known
mod needs; // which bytes have to be asked for
mod requests; // what a request says of its decision
mod row; // what is known of the row of a key
mod spans; // which bytes a reply shows

pub use fetched::fetch_range;
pub use needs::{is_near, need};
pub use row::PlanRow;
pub use spans::span;
pub use table::{Begun, decide};
