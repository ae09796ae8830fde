// Why a folder was not opened.
ghost use Rattle.std.specs.Prelude.{◌≡◌};
ghost use Rattle.pp_recover.specs.declared.faults.RecoverFault.TheVariants.{OutOfMemory};
ghost use Rattle.pp_recover.specs.Faults.{fault_of};

use pp_text::OutOfMemory;
use pp_world::NamesFault;
use thiserror::Error;

/// Why a folder was not opened.
#[derive(Clone, Copy, Debug, PartialEq, Eq, Error)]
pub enum RecoverFault {
    /// The folder could not be listed.
    #[error("the folder could not be listed")]
    DiskFault,
    /// Memory was asked for and not given.
    #[error("memory was asked for and not given")]
    OutOfMemory,
}

impl From<OutOfMemory> for RecoverFault {
    ghost from_gives = { λ e f. f ≡ OutOfMemory };

    fn from(_: OutOfMemory) -> Self {
        RecoverFault::OutOfMemory
    }
}

impl From<NamesFault> for RecoverFault {
    ghost from_gives = { λ e f. f ≡ fault_of e };

    fn from(fault: NamesFault) -> Self {
        match fault {
            NamesFault::Disk => RecoverFault::DiskFault,
            NamesFault::OutOfMemory => RecoverFault::OutOfMemory,
        }
    }
}
