// Chunks of rows that are kept on the disk.
ghost use Rattle.pp_laws_versions.specs.Wholes.{TurnsHoldAllOrNone};

/// Of a chunk below the extent of its row's entry all is in memory, or nothing.
pub fn kept_chunks_are_whole_in_memory()
    ensures { TurnsHoldAllOrNone }
{}
