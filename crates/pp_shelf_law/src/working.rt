// Operations that a call runs, one behind the other.
ghost use Rattle.pp_shelf_law.specs.Runs.{DoneOnesLead, FailedDraftsLead, FailedOnesLead};

/// Where the agenda of the law begins with them, all of them may come, or up to one that failed.
pub fn operations_are_permitted()
    ensures done { DoneOnesLead }
    ensures failed { FailedOnesLead }
    ensures lost { FailedDraftsLead }
{}
