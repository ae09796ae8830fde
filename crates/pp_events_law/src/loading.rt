// A chunk is read back before a write.
ghost use Rattle.pp_events_law.specs.ReadsBack.{ChunksAreReadBack};
ghost use Rattle.pp_events_law.specs.Loads.{LoadsLead};

/// It is in memory, and is said next; or its entry is gone, and nothing is owed any more.
pub fn chunks_are_read_back_as_by_the_law()
    ensures { ChunksAreReadBack }
{}

/// The whole write: behind the read what is there is said; or the read failed, nothing is said, and the event is handled.
pub fn writes_lead_behind_reads_as_by_the_law()
    ensures { LoadsLead }
{}
