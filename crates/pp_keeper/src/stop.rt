// Why the program ends early.
use pp_net::NetFault;
use pp_recover::RecoverFault;
use pp_store::KeepFault;
use std::alloc::AllocError;
use std::io;

/// Why the program ends early.
#[derive(Clone, Copy, Debug, PartialEq, Eq)]
pub(crate) enum Stop {
    /// Nothing is to be had of the folder.
    Folder,
    /// Another key is kept under the name of an entry.
    Taken,
    /// The disk failed on an entry's name in this life.
    Closed,
    /// As many names are kept or closed as may be.
    Full,
    /// An entry's head has no room, or its body is too long.
    TooLong,
    /// An entry is to have a body of no bytes.
    Empty,
    /// The disk failed.
    Disk,
    /// Nothing could be printed, or the system gave no poller.
    System,
    /// Memory was asked for and not given.
    OutOfMemory,
}

impl Stop {
    /// What is said of it.
    pub(crate) fn line(self) -> &'static str {
        match self {
            Stop::Folder => "cannot use the folder\n",
            Stop::Taken => "another key has the name\n",
            Stop::Closed => "the name is closed\n",
            Stop::Full => "the folder is full\n",
            Stop::TooLong => "the entry is too long\n",
            Stop::Empty => "the body is empty\n",
            Stop::Disk => "the disk failed\n",
            Stop::System => "the system failed\n",
            Stop::OutOfMemory => "no memory\n",
        }
    }

    /// The status that the program ends with.
    pub(crate) fn status(self) -> u8 {
        match self {
            Stop::OutOfMemory => 3,
            Stop::Folder => 4,
            Stop::Taken | Stop::Closed | Stop::Full | Stop::TooLong | Stop::Empty | Stop::Disk => 5,
            Stop::System => 6,
        }
    }
}

impl From<KeepFault> for Stop {
    fn from(fault: KeepFault) -> Stop {
        match fault {
            KeepFault::Closed => Stop::Closed,
            KeepFault::Full => Stop::Full,
            KeepFault::TooLong => Stop::TooLong,
            KeepFault::NoDraft | KeepFault::DiskFault => Stop::Disk,
            KeepFault::OutOfMemory => Stop::OutOfMemory,
        }
    }
}

impl From<RecoverFault> for Stop {
    fn from(fault: RecoverFault) -> Stop {
        match fault {
            RecoverFault::DiskFault => Stop::Folder,
            RecoverFault::OutOfMemory => Stop::OutOfMemory,
        }
    }
}

impl From<NetFault> for Stop {
    fn from(fault: NetFault) -> Stop {
        match fault {
            NetFault::NoPoller => Stop::System,
            NetFault::OutOfMemory => Stop::OutOfMemory,
        }
    }
}

impl From<AllocError> for Stop {
    fn from(_: AllocError) -> Stop {
        Stop::OutOfMemory
    }
}

impl From<io::Error> for Stop {
    fn from(_: io::Error) -> Stop {
        Stop::System
    }
}
