// Before a chunk is read back.
ghost use Rattle.pp_joints_law.specs.Loading.{CarriedOnesAreOnDisk, NoneLeavesAtWaits, OwedOnesAreFirst};

/// Where a write is owed nothing has to leave memory, and the disk is at rest.
pub fn what_is_carried_may_be_read_back()
    ensures waits { NoneLeavesAtWaits }
    ensures owed { OwedOnesAreFirst }
    ensures disk { CarriedOnesAreOnDisk }
{}
