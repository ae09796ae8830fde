// A reply by the row.
ghost use Rattle.pp_turns_law.specs.Follows.{FollowsAreTheLaws};

/// Its client follows the row of its key, and its request leaves an exchange that brings nothing of it.
pub fn replies_are_the_laws()
    ensures follows { FollowsAreTheLaws }
{}
