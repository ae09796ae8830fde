// Replies that begin.
ghost use Rattle.pp_asks_law.specs.Begins.{RepliesMayBegin};

/// At the end of a turn each reply that begins may.
pub fn replies_may_begin()
    ensures begins { RepliesMayBegin }
{}
