// A client is read.
ghost use Rattle.pp_events_law.specs.Hears.{HearingsLead};
ghost use Rattle.pp_events_law.specs.Readable.{ClientReadsLead};

/// What came is heard, it sends no more, or nothing came yet; and replies that are over end. From where the read is owed, and from the wait.
pub fn clients_are_heard_as_by_the_law()
    ensures leads { HearingsLead }
    ensures whole { ClientReadsLead }
{}
