// Why an entry is not kept, or not read.
ghost use Rattle.std.specs.Prelude.{◌≡◌};
ghost use Rattle.pp_store.specs.declared.faults.KeepFault.TheVariants.{OutOfMemory, TooLong};

use pp_text::OutOfMemory;
use std::alloc::AllocError;
use thiserror::Error;

/// Why an entry is not kept.
#[derive(Clone, Copy, Debug, PartialEq, Eq, Error)]
pub enum KeepFault {
    /// An operation on the key's file name failed in this life.
    #[error("the name of an entry is closed")]
    Closed,
    /// 10,000 names or more are kept or closed.
    #[error("10,000 entries are kept")]
    Full,
    /// The head block has no room for the entry, or it has more than 95 fields.
    #[error("an entry exceeds its head block")]
    TooLong,
    /// The disk failed before the entry had its name. Nothing is changed.
    #[error("an entry was not written")]
    NoDraft,
    /// The disk failed to name the entry, and the name is closed.
    #[error("an entry was not named")]
    DiskFault,
    /// Memory was asked for and not given.
    #[error("memory was asked for and not given")]
    OutOfMemory,
}

impl From<OutOfMemory> for KeepFault {
    ghost from_gives = { λ e f. f ≡ OutOfMemory };

    fn from(_: OutOfMemory) -> Self {
        KeepFault::OutOfMemory
    }
}

impl From<AllocError> for KeepFault {
    ghost from_gives = { λ e f. f ≡ OutOfMemory };

    fn from(_: AllocError) -> Self {
        KeepFault::OutOfMemory
    }
}

impl From<pp_entry::TooLong> for KeepFault {
    ghost from_gives = { λ e f. f ≡ TooLong };

    fn from(_: pp_entry::TooLong) -> Self {
        KeepFault::TooLong
    }
}

/// Why a chunk was not read.
#[derive(Clone, Copy, Debug, PartialEq, Eq, Error)]
pub enum LoadFault {
    /// The disk failed.
    #[error("the disk failed")]
    DiskFault,
    /// The file has fewer bytes than were kept.
    #[error("a chunk has {wanted} bytes, and {got} were read")]
    Short {
        /// How many bytes the chunk has.
        wanted: u64,
        /// How many bytes were read.
        got: u64,
    },
}
