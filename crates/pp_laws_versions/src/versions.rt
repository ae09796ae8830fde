// Rows and their entries.
ghost use Rattle.pp_laws_versions.specs.Versions.{FoundOnesHaveOneVersion, TurnsHaveOneVersion};

/// A row that was not replaced is of the version of each entry of its key that is not stale.
pub fn rows_are_of_the_version_of_their_entries()
    ensures turns { TurnsHaveOneVersion }
    ensures found { FoundOnesHaveOneVersion }
{}
