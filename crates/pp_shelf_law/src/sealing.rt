// A run of a row is sealed.
ghost use Rattle.pp_shelf_law.specs.Seals.{SealsAreTheLaws};

/// It is sealed and noted, or its entry is gone and its name closed.
pub fn what_is_sealed_is_the_laws()
    ensures { SealsAreTheLaws }
{}
