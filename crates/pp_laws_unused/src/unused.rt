// Before the first wait.
ghost use Rattle.pp_laws_unused.specs.Unused.{OpeningsAreUnused};

/// In its opening a life has no client, no connection, no exchange and nothing in memory; its clock has not ticked, and nobody said Stop.
pub fn nothing_is_there_yet()
    ensures unused { OpeningsAreUnused }
{}
