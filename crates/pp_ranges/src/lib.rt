//! The byte range that a request asks for (RFC 7233, sections 2.1 and 4.4).
//!
//! `read_range` reads it from the request's fields, and `resolve` says which bytes of a body of
//! known length it stands for. A Range field that does not count, since it has another unit,
//! several ranges or no valid one, is ignored, as the RFC lets every server do (section 3.1).
//!
//! To the layer above: both answers are those of `specs/Ranges.antt`, and a part that is answered
//! is not empty and lies within the body.
//!
//! Takes no memory. Whether If-Range lets the range count is for `pp_valid`.
#![tactic(auto)]

mod range; // a range, and what it resolves to
mod read; // from the fields of a request to its range

pub use range::{Range, Resolved, resolve};
pub use read::read_range;
