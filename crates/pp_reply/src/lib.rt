//! The head of a reply, and the pages of the proxy's own (RFC 2616, section 6).
//!
//! `write_reply` writes what stands before a reply's body: of a passed response its status line and
//! the fields that go on, with a Via line, one framing and whether the connection goes on; of a
//! refusal the whole page. `write_kept_reply` does so for a reply that is made from a kept
//! response: all of it, a part, its head, a 304, or the page of a 416.
//!
//! To the layer above: the text is that of `specs/Texts.antt` and `specs/Kept.antt`, byte by byte,
//! and it always fits.
//!
//! Takes no memory. What is replied, and when it begins, is for others.
#![tactic(auto)]

mod keeping; // whether the connection goes on, and what a request expects
mod kept; // replies that are made from a kept response
mod lines; // a text behind another
mod page; // the pages of the proxy's own
mod passed; // the head of a passed response
mod reply; // the kinds of replies

pub use keeping::{CONTINUE, is_end_known, is_kept_open, wants_interim};
pub use kept::{KeptReply, KeptView, write_kept_reply};
pub use lines::TEXT_LEN;
pub use reply::{ReplyKind, write_reply};
