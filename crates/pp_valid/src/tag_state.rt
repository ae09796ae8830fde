// The entity tag of a response (RFC 7232, section 2.3).
ghost use Rattle.std.specs.Prelude.{◌≡◌};
ghost use Rattle.pp_valid.specs.TagStates.{state_of, tag_of};

use crate::end_to_end::is_dropped;
use crate::tag::{Tag, is_weak_tag};
use pp_text::Fields;

/// What the ETag fields of a response say.
#[derive(Clone, Copy, Debug, PartialEq, Eq)]
pub enum TagState {
    /// There is no tag, or Connection names it.
    None,
    /// One tag, which is weak.
    Weak,
    /// One tag, which is strong and has at most 1,024 bytes with its quotation marks.
    Strong(Tag),
    /// More than one field.
    Several,
    /// One field that has no tag, or a strong one above 1,024 bytes.
    Bad,
}

/// The tag of a response.
pub fn tag_of(fields: &Fields<'_, '_>) -> TagState
    ensures { result ≡ tag_of fields.now }
{
    if is_dropped(fields, b"etag") {
        return TagState::None;
    }
    let mut values = fields.values(b"etag");
    let Some(value) = values.next() else {
        return TagState::None;
    };
    if values.next().is_some() {
        return TagState::Several;
    }
    state_of(value)
}

fn state_of(value: &[u8]) -> TagState
    ensures { result ≡ state_of value.now }
{
    match Tag::read(value) {
        Some(tag) => TagState::Strong(tag),
        None if is_weak_tag(value) => TagState::Weak,
        None => TagState::Bad,
    }
}
