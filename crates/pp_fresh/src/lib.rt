//! How long a response may be used without asking its origin (RFC 2616, sections 13.2 and 14.9).
//!
//! `Directives` are what the Cache-Control fields say together. `Times` are what the response's
//! arrival says of its age; from them and its fields come the age at any later moment, the lifetime,
//! and whether the two leave it fresh. `ready` weighs a request against a kept response.
//!
//! To the layer above: each answer is that of a definition in `specs/` on the fields and on whole
//! numbers of seconds.
//!
//! Takes no memory. Which responses are kept, and what is done with one that is not ready, is for
//! others.
#![tactic(auto)]

mod aging; // how old a response is
mod dates; // dates as seconds
mod directive; // one directive of a Cache-Control field
mod directives; // what the Cache-Control fields say together
mod freshness; // how long a response is fresh
mod guessing; // where that may be guessed
mod reuse; // whether it may be kept, and used for a request

pub use aging::{Times, age, times_of};
pub use dates::date_of;
pub use directives::Directives;
pub use freshness::lifetime;
pub use guessing::allows_guess;
pub use reuse::{may_store, ready};
