// The row that gives way to another.
ghost use Rattle.pp_turns_law.specs.Ways.{ItsDecisionIsStillDue, ItsNoteIsPermitted, RowsComeInWithDecisions, WaysAreTheLaws};

/// The one that has to leave by the law gives way, its note is permitted, and that decision comes next; where none has to, the other
/// comes in with the decision.
pub fn rows_yield_as_the_laws()
    ensures ways { WaysAreTheLaws }
    ensures notes { ItsNoteIsPermitted }
    ensures stays { ItsDecisionIsStillDue }
    ensures comes { RowsComeInWithDecisions }
{}
