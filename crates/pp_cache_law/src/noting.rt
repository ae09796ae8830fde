// What is noted of the disk, in the cache and in the table of the law alike.
ghost use Rattle.pp_cache_law.specs.Notes.{DraftsAreTheLaws, KeepingsAreTheLaws, LossesAreTheLaws, RemovalsAreTheLaws};
ghost use Rattle.pp_cache_law.specs.Outdated.{ClearingsAreTheLaws, KeptRowsAreTheLaws, TakingsAreTheLaws};

/// A row is kept on the disk for the first time, is kept further, or is kept no more, and an entry that stands for no row is taken
/// away: the cache shows what the law makes of its table.
pub fn extents_are_noted_as_the_laws()
    ensures drafts { DraftsAreTheLaws }
    ensures keepings { KeepingsAreTheLaws }
    ensures losses { LossesAreTheLaws }
    ensures removals { RemovalsAreTheLaws }
{}

/// An entry stands for no row any more, is taken away for that, and stands for its row until then.
pub fn outdated_ones_are_the_laws()
    ensures kept { KeptRowsAreTheLaws }
    ensures clearings { ClearingsAreTheLaws }
    ensures takings { TakingsAreTheLaws }
{}
