// What is waited for.
ghost use Rattle.pp_turns_law.specs.Readers.{FarAheadIsTheLaws};
ghost use Rattle.pp_turns_law.specs.Wants.{AcceptsAreTheLaws, NoMoreIsRead, NoMoreIsWritten, ReadsAreTheLaws, WritesAreTheLaws};

/// Whether a client is accepted, which clients are read, and to which there is something to say; and no others.
pub fn wants_are_the_laws()
    ensures accepts { AcceptsAreTheLaws }
    ensures reads { ReadsAreTheLaws }
    ensures writes { WritesAreTheLaws }
    ensures no_more_read { NoMoreIsRead }
    ensures no_more_written { NoMoreIsWritten }
{}

/// An exchange is far ahead of all its readers.
pub fn far_ahead_is_the_laws()
    ensures far { FarAheadIsTheLaws }
{}
