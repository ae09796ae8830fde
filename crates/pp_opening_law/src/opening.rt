// The memory, before the first event.
ghost use Rattle.pp_opening_law.specs.Openings.{MemoryIsTheLaws, SettingsAreTheLaws};

/// Nobody is there, and nothing is in memory; the marks, the limits and the length of a run are those of the law.
pub fn openings_are_the_laws()
    ensures memory { MemoryIsTheLaws }
    ensures settings { SettingsAreTheLaws }
{}
