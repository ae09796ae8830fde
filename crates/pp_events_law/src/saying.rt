// A client is written to.
ghost use Rattle.pp_events_law.specs.Says.{SayingsLead};
ghost use Rattle.pp_events_law.specs.Sayable.{ClientWritesLead};

/// Some of its reply is said, and behind its last bytes it is over; or the write fails. From where the write is owed, and from the wait.
pub fn writes_to_clients_lead_as_by_the_law()
    ensures leads { SayingsLead }
    ensures whole { ClientWritesLead }
{}
