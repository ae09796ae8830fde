// What a crash leaves, to which the next life wakes.
ghost use Rattle.pp_turn_law.specs.Left.{CrashesLeaveTheDisk, FailedNamesAreClosed, FilesStandAsLogged};

/// Behind a log that obeys the law a crash leaves of the law's disk what it leaves of the log. Under each name the same files may stand in both, also
/// under one that could not be read: on whatever name something failed, it is closed.
pub fn crashes_leave_the_disk()
    ensures closed { FailedNamesAreClosed }
    ensures stand { FilesStandAsLogged }
    ensures left { CrashesLeaveTheDisk }
{}
