// The one draft.
ghost use Rattle.std.specs.Prelude.{◌≡◌, IfOk};
ghost use Rattle.pp_world.specs.Disk.{synced, unsynced};

use crate::file::File;
use pp_text::OutOfMemory;
use std::alloc::Global;
use std::marker::Model;

/// Bytes that are to become a file. Contracts see the file that they would be.
#[derive(Drop)]
pub(crate) struct Draft {
    bytes: Vec<u8>,
    is_synced: bool,
}

impl Model for Draft {
    ghost use Rattle.pp_world.specs.Disk.{Stored};

    ghost Value = { Stored };

    ghost use Rattle.pp_memworld.specs.Draft.{drafted};

    ghost view = { drafted };
}

impl Draft {
    pub(crate) fn new(alloc: Global, bytes: &[u8]) -> Result<Draft, OutOfMemory>
        ensures { IfOk result (λ d. d ≡ unsynced bytes.now) }
    {
        Ok(Draft {
            bytes: Vec::from_slice(alloc, bytes)?,
            is_synced: false,
        })
    }

    #[tactic(auto, unfolding(pp_world::specs::Disk::settled, pp_world::specs::Disk::unsynced))]
    pub(crate) fn sync(&mut self)
        ensures { self.new ≡ synced self.old }
    {
        self.is_synced = true;
    }

    /// The file that it would be.
    pub(crate) fn file(&self, alloc: Global) -> Result<File, OutOfMemory>
        ensures { IfOk result (λ f. f ≡ self.now) }
    {
        if self.is_synced {
            File::settled(alloc, self.bytes.as_slice())
        } else {
            File::unsynced(alloc, self.bytes.as_slice())
        }
    }
}
