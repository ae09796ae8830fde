//! Heads of requests and responses (RFC 2616, sections 4 to 6), read whole or not at all.
//!
//! `KeptHead::read` and `read_response` read the head at the front of some bytes, by the grammar of
//! `httparse` and within limits of our own: a caller asks again when more bytes have come. Of a
//! request where its parts stand is kept, and `KeptHead::show` shows them over those bytes as often
//! as they are asked for.
//!
//! To the layer above: each answer is that of `request_at` or `response_at` in `specs/` on the
//! bytes, the first of four states that applies. In the words of the grammar alone,
//!
//! - `Whole` comes exactly where a head within the limits stands at the front, empty lines before
//!   its first line counted (RFC 2616, section 4.1);
//! - `TooLong` where none does, and a limit of bytes or line ends is reached;
//! - `Bad` where no bytes that may follow make a head, of any size;
//! - `More` where some may. Bytes that end inside a request target are `More`: whether the target
//!   is UTF-8 is asked once it has ended.
//!
//! More bytes leave `Whole` and `TooLong` as they are, and turn `Bad` to nothing but `TooLong`.
//!
//! Takes no memory: the spans of the fields stand in a `KeptHead` or a `Scratch` that the caller has.
//! What the fields mean is for others.
#![tactic(auto)]

mod kept; // a head that was read
mod limits; // how long a head may be
mod part; // whether bytes end inside a request target
mod request; // the head of a request
mod response; // the head of a response
mod scratch; // where the fields are
mod state; // the four states

pub use kept::KeptHead;
pub use limits::{MAX_BYTES, MAX_FIELDS, MAX_LINE_ENDS};
pub use request::RequestHead;
pub use response::{ResponseHead, read_response};
pub use scratch::Scratch;
pub use state::HeadState;
