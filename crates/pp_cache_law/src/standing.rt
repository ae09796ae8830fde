// When a cache shows a table, and what is no part of either.
ghost use Rattle.pp_cache_law.specs.Frames.{BeginningsAreTheLaws, FramesAreTheLaws};

/// An empty cache shows an empty table; and what is no part of the table may change, in the cache and in the law.
pub fn tables_are_the_laws()
    ensures beginnings { BeginningsAreTheLaws }
    ensures frames { FramesAreTheLaws }
{}
