//! Validators (RFC 7232) and the version of a response (RFC 2616, section 13.5.4).
//!
//! A `Version` is a strong entity tag and the length of the whole body: responses of one version
//! carry parts of the same bytes, so that they may be combined (RFC 7233, section 4.3). `version_of`
//! reads it from the head of a response, and gives none where the response may not be kept or its
//! parts could not be told from another's: a weak tag makes no version.
//!
//! To the layer above: each answer is that of a definition in `specs/` on the list of fields, and a
//! field that Connection names counts as absent (RFC 2616, section 14.10).
//!
//! Takes no memory. How long a response is fresh is for `pp_fresh`, what is done with it for
//! `pp_plan`.
#![tactic(auto)]

mod codings; // content codings
mod conditions; // conditions of a request, and of the answer to one
mod content_range; // the part of a body that a response carries
mod end_to_end; // fields that Connection does not name
mod kept; // the room that the lines of a kept response take
mod tag; // strong entity tags
mod tag_state; // the entity tag of a response
mod version; // a strong tag and a total length
mod versions; // from the head of a response to its version

pub use codings::accepts_only_identity;
pub use conditions::{if_range_holds, matches_none, names_other_tag, not_modified_since};
pub use content_range::{ContentRange, read_content_range};
pub use kept::{date_value, is_of_one_message, is_renewed, line_len};
pub use tag::Tag;
pub use tag_state::{TagState, tag_of};
pub use version::Version;
pub use versions::{body_length, version_of};
