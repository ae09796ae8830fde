//! What an origin is asked (RFC 2616, section 5).
//!
//! `write_ask` writes the head of the request that an exchange sends: the whole of a URL, a range of
//! it, a hole of one version of it, a check whether a version still stands, or the request of the
//! client as it came. The fields of the client go on with it but for those of its connection and
//! those that the kind of the ask replaces.
//!
//! To the layer above: the text is that of `specs/Texts.antt`, byte by byte, and `TooLong` comes
//! exactly where it exceeds 16,384 bytes.
//!
//! Takes no memory. When an origin is asked, and on which connection, is for others.
#![tactic(auto)]

mod kind; // the kinds of asks, and the lines that are theirs
mod lines; // a text behind another, as far as there is room
mod text; // the text of an ask

pub use kind::AskKind;
pub use lines::{ASK_LEN, TooLong};
pub use text::write_ask;
