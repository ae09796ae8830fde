//! One client's side: what it sent, its current request, and the reply to it (RFC 2616, sections
//! 4.4, 5, 8.1.2.2 and 8.2.3).
//!
//! A client sends requests one behind the other, in pieces of any size, and is answered in their
//! order. The first that was not answered is the current one. Its head stands by itself, the bytes
//! of its body are lent to whoever sends them on, and what follows waits. Its reply is a head or
//! page, and behind it a span of an instance, lent from the pool, or what a pipe brings; the interim
//! answer comes before both. Once all of it was said the next request stands.
//!
//! To the layer above: a `Client` is a record of what was heard and of what is left to be said, and
//! each call is the change of it that `specs/` says. `current` is what the reader of heads gives for
//! what was heard, however that was cut.
//!
//! Only `Client::new` takes memory. Which reply is given is for `pp_due` and `pp_take`, its head for `pp_reply`.
#![tactic(auto)]

mod body; // what the bytes behind a head are
mod buffer; // bytes that go out at the front
mod client; // the calls
mod current; // what stands at the front
mod gather; // what is at hand, in one piece
mod heard; // the bytes that were heard
mod interim; // the interim answer
mod reply; // the reply under way
mod span; // a body that is lent

pub use client::Client;
pub use current::Current;
pub use gather::{OFFER_LEN, Room};
pub use heard::HEARD_LEN;
pub use reply::Begin;
