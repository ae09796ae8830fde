//! Where the body of a message ends (RFC 2616, section 4.4), and its bytes.
//!
//! `rule` reads a head and says how the body is delimited. A `Decoder` for that rule is fed what
//! follows, in pieces of any size, and answers spans of them: nothing is copied.
//!
//! To the layer above: however the bytes are cut, the data are those of `specs/Rules.antt` on the
//! joined bytes, and `Bad` means that no continuation is a body.
//!
//! Takes no memory. Which request a body answers is for others.
#![tactic(auto)]

mod body; // what a decoder answers
mod decoder; // one body under its rule
mod framing; // from a head to its rule
mod place; // where in a body a decoder is, byte by byte

pub use body::{BodyRule, BodyState, Ending, Fed};
pub use decoder::Decoder;
pub use framing::{FramingFault, ResponseFault, request_rule, rule};
