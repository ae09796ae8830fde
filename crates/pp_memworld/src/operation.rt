// An operation on the disk, over what its caller holds.
ghost use Rattle.std.specs.Prelude.{◌≡◌, IfOk};
ghost use Rattle.pp_memworld.specs.Operation.{op_of};

use pp_text::{Octets, OutOfMemory};
use pp_world::{DiskOp, Name};
use std::alloc::Global;

/// An operation that changes the disk, before the log keeps it.
#[derive(Clone, Copy)]
pub(crate) enum Operation<'a> {
    Draft(&'a [u8]),
    SyncDraft,
    Publish(&'a Name),
    Write(&'a Name, u64, &'a [u8]),
    Sync(&'a Name),
    Remove(&'a Name),
}

/// The operation as the log keeps it.
pub(crate) fn kept(alloc: Global, operation: Operation<'_>) -> Result<DiskOp, OutOfMemory>
    ensures { IfOk result (λ op. op ≡ op_of operation.entry) }
{
    match operation {
        Operation::Draft(bytes) => Ok(DiskOp::Draft(Octets::copy(alloc, bytes)?)),
        Operation::SyncDraft => Ok(DiskOp::SyncDraft),
        Operation::Publish(name) => Ok(DiskOp::Publish(*name)),
        Operation::Write(name, at, bytes) => {
            Ok(DiskOp::Write(*name, at, Octets::copy(alloc, bytes)?))
        }
        Operation::Sync(name) => Ok(DiskOp::Sync(*name)),
        Operation::Remove(name) => Ok(DiskOp::Remove(*name)),
    }
}
