//! Texts of bytes: owned bytes, the fields of a head, numbers and comma lists.
//!
//! What HTTP's grammars share (RFC 2616, section 2): octets that are compared but for ASCII case,
//! decimal and hexadecimal numbers, comma lists with quoted strings, and the fields of a head as a
//! list of names and values over the text that they stand in.
//!
//! To the layer above: each answer is that of a definition in `specs/` on the whole text.
//!
//! Only an `Octets` takes memory. Which fields there are, and what they mean, is for others.
#![tactic(auto)]

mod ascii; // texts but for ASCII case
mod blanks; // the blanks at the ends of a text
mod decimal; // numbers written as text
mod field_items; // the items of the comma lists of all fields of a name
mod field_values; // the values of the fields of a name
mod fields; // the fields of a head, over its text
mod forwarding; // fields that a proxy does not forward
mod items; // the items of a comma list
mod numbers; // numbers read from text
mod octets; // owned bytes
mod parts; // parts of a text, and the one field of a name
mod quoting; // where quoted strings open and close

pub use ascii::same;
pub use blanks::trim;
pub use decimal::put_u64;
pub use field_items::FieldItems;
pub use field_values::FieldValues;
pub use fields::{FieldSpan, Fields};
pub use forwarding::is_forwarded;
pub use items::Items;
pub use numbers::{read_hex, read_u64};
pub use octets::{Octets, OutOfMemory};
pub use parts::{cut, sole_item, sole_value};
pub use quoting::Quoting;
