// What a head block says.
use crate::text::MAX_KEPT;
use pp_fresh::Times;
use pp_text::{FieldSpan, Fields};
use pp_valid::Version;

/// The entry of a key: which version of its body is kept, and with which fields.
#[derive(Drop)]
pub struct Entry<'a, 's> {
    pub key: &'a [u8],
    pub version: Version,
    /// The kept fields, their names in lower case.
    pub fields: Fields<'a, 's>,
    /// When the response came, and its age then. The time of the request is that of the response, and
    /// its lifetime is not guessed.
    pub times: Times,
    /// Where the body stands in the file, in bytes.
    pub body_at: u64,
}

/// Room for reading one head block. Each reading writes over it, and none asks what it held before.
#[derive(Drop)]
pub struct Scratch {
    pub(crate) head: pp_head::Scratch,
    pub(crate) spans: [FieldSpan; MAX_KEPT],
}

impl Scratch {
    pub fn new() -> Scratch {
        Scratch {
            head: pp_head::Scratch::new(),
            spans: [FieldSpan::EMPTY; MAX_KEPT],
        }
    }
}
