// Replies that were said whole are over.
ghost use Rattle.pp_endings_law.specs.Replies.{DesksEndAsTheLaws, RepliesEndAsTheLaws};

/// Of as many clients at once as there are, amid an event and in a turn.
pub fn replies_end_as_the_laws()
    ensures ends { RepliesEndAsTheLaws }
    ensures desks { DesksEndAsTheLaws }
{}
