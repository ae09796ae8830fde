// How many files the folder has.
ghost use Rattle.pp_laws_found.specs.Counts.{ImagesAreSmall};

/// Whatever a crash may leave behind a lawful log has at most 10,000 entries, and at most 1,000 other
/// files: those that the first life found.
pub fn files_are_few()
    ensures few { ImagesAreSmall }
{}
