//! A bounded pipe of the body of a passed reply (RFC 2616, section 3.6.1).
//!
//! What an origin brings goes in at one end, in chunks of the chunked coding where the client is to
//! get it so, and what the client takes goes out at the other. The pipe tells how much may be read
//! for it: what was read always fits, and so does the last chunk.
//!
//! To the layer above: a `Pass` is a list of bytes, first in first out, whether it spells chunks,
//! and whether the body was finished.
//!
//! Only `new` takes memory. Whose body it is, and when it begins, is for others.
#![tactic(auto)]

mod pass; // the pipe
mod spelling; // the chunked coding of a piece of data

pub use pass::Pass;
