// An origin is asked.
ghost use Rattle.pp_events_law.specs.Asks.{AskingsLead};
ghost use Rattle.pp_events_law.specs.Writable.{OriginWritesLead};

/// Of what is left of a text, or of a request's body; or its connection is gone. From where the write is owed, and from the wait.
pub fn origins_are_asked_as_by_the_law()
    ensures leads { AskingsLead }
    ensures whole { OriginWritesLead }
{}
