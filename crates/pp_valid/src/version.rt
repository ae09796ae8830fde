// Versions: which bytes a URL had.
use crate::tag::Tag;

/// Which bytes a URL had: two responses of one version carry parts of the same bytes (RFC 7232,
/// section 2.1; RFC 7233, section 4.3).
#[derive(Clone, Copy, Debug, PartialEq, Eq)]
pub struct Version {
    /// The entity tag, which is strong.
    pub tag: Tag,
    /// The length of the whole body in bytes.
    pub length: u64,
}
