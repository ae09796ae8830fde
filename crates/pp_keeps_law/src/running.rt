// Runs of a body that is in memory, and what is planned for a row.
ghost use Rattle.pp_keeps_law.specs.Plans.{DraftsMayBegin, SealsMayBegin};
ghost use Rattle.pp_keeps_law.specs.Runs.{FullRunsAreTheLaws, LaidOnesAreTheLaws};

/// The same run of a body is full in the cache and in the law, and its bytes are at hand, where a file has room for them.
pub fn runs_are_the_laws()
    ensures full { FullRunsAreTheLaws }
    ensures laid { LaidOnesAreTheLaws }
{}

/// What is planned for a row, its draft or the sealing of a run, the law lets begin, with the bytes that are laid out.
pub fn plans_are_the_laws()
    ensures drafts { DraftsMayBegin }
    ensures seals { SealsMayBegin }
{}
