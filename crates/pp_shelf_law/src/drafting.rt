// The entry of a row is drafted.
ghost use Rattle.pp_shelf_law.specs.Drafts.{DraftsAreTheLaws};

/// It is an entry at once, and noted where it has all of its body; or the draft is lost, or its name closed.
pub fn what_is_drafted_is_the_laws()
    ensures { DraftsAreTheLaws }
{}
