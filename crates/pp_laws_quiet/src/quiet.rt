// What is none of the disk.
ghost use Rattle.pp_laws_quiet.specs.Quiet.{QuietOnesLeaveTheDisk};
ghost use Rattle.pp_laws_quiet.specs.Steady.{SteadyOnesLeaveTheClock};

/// From any state of a turn on, whatever happens but words of the disk and of the opening, the entries stay but for whether they are stale,
/// and so do closed names, what is begun, and the settings; and of each key whose name another took there is an entry still. Where the
/// clock did not tick, it stands as it did.
pub fn quiet_happenings_leave_the_disk()
    ensures left { QuietOnesLeaveTheDisk }
    ensures clock { SteadyOnesLeaveTheClock }
{}
