// Rows and chunks that leave memory.
ghost use Rattle.pp_leaves_law.specs.Leaves.{LeavingsAreCalm, LeavingsLead};

/// The rows that left are noted, and chunks go down to the low mark; in none of the notes the outside failed.
pub fn what_leaves_is_permitted()
    ensures leavings { LeavingsLead }
    ensures calm { LeavingsAreCalm }
{}
