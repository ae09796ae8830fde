// Which instance is meant.

/// An instance: the slot in which it stands, and its life, which no other instance ever has.
#[derive(Clone, Copy, Debug, Default, PartialEq, Eq)]
pub struct ObjectId {
    pub slot: u32,
    pub life: u64,
}
