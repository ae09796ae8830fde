// What changes the chunks of the cache changes the table of the law alike.
ghost use Rattle.pp_cache_law.specs.Uses.{EvictionsAreTheLaws, TouchesAreTheLaws, UsesAreTheLaws};

/// Chunks are used in their order, or one leaves memory: the cache shows what the law makes of its table.
pub fn uses_are_the_laws()
    ensures uses { UsesAreTheLaws }
    ensures touches { TouchesAreTheLaws }
    ensures evictions { EvictionsAreTheLaws }
{}
