// Behind an event.
ghost use Rattle.pp_joints_law.specs.Handled.{HandledOnesAreDone};

/// Where it is handled, the turn stands where memory may be left.
pub fn memory_is_left_behind_events()
    ensures done { HandledOnesAreDone }
{}
