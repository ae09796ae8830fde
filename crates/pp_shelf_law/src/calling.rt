// Calls of the disk, in a log that goes on.
ghost use Rattle.pp_shelf_law.specs.Calls.{KeepsAdd, RunsAdd};
ghost use Rattle.pp_shelf_law.specs.Joined.{DraftsLead, SealsLead, TakingsLead};

/// What the calls of the store add, with the failures that the outside counts.
pub fn calls_of_the_disk_are_counted()
    ensures runs { RunsAdd }
    ensures drafts { KeepsAdd }
{}

/// The calls of a turn, each with its note, lead where the law leads, and the shelf shows it.
pub fn turns_of_the_disk_lead_on()
    ensures taken { TakingsLead }
    ensures sealed { SealsLead }
    ensures drafted { DraftsLead }
{}
