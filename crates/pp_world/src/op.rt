// An operation that changes the disk.
use crate::Name;
use pp_text::Octets;

/// An operation that changes the disk.
#[derive(Drop)]
pub enum DiskOp {
    /// The one draft is to hold just these bytes.
    Draft(Octets),
    /// What the draft holds is to stand through a crash.
    SyncDraft,
    /// The draft is to become the file of this name, in one step.
    Publish(Name),
    /// The file of this name, the offset in bytes, and the bytes that are to stand from there on.
    Write(Name, u64, Octets),
    /// What the file of this name holds is to stand through a crash.
    Sync(Name),
    /// The file of this name is to go.
    Remove(Name),
}
