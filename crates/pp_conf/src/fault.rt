// Why words and text give no settings.
ghost use Rattle.std.specs.Prelude.{◌≡◌};
ghost use Rattle.pp_conf.specs.declared.fault.ConfFault.TheVariants.{OutOfMemory};

use crate::setting::Setting;
use std::alloc::AllocError;
use thiserror::Error;

/// The first cause that applies, in this order.
#[derive(Clone, Copy, Debug, PartialEq, Eq, Error)]
pub enum ConfFault {
    /// The words have no reading.
    #[error("the words have no reading")]
    Usage,
    /// The text has more than 65,536 bytes.
    #[error("the configuration exceeds 65,536 bytes")]
    TooLong,
    /// This line of the text, counted from 1, is the first that is not understood.
    #[error("line {0} of the configuration is not understood")]
    BadLine(u64),
    /// This setting is the first whose value is outside its range, or that does not go with the others.
    #[error("the value of {} is not understood", .0.name())]
    BadValue(Setting),
    #[error("memory was asked for and not given")]
    OutOfMemory,
}

impl From<AllocError> for ConfFault {
    ghost from_gives = { λ e f. f ≡ OutOfMemory };

    fn from(_: AllocError) -> Self {
        ConfFault::OutOfMemory
    }
}
