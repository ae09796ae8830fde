// A client is closed, and shut.
ghost use Rattle.pp_turns_law.specs.Clients.{ClientsLeaveAsTheLaws};
ghost use Rattle.pp_turns_law.specs.Shuts.{ShutsAreTheLaws};

/// Its exchange is over, or nobody's.
pub fn clients_are_the_laws()
    ensures leaves { ClientsLeaveAsTheLaws }
{}

/// One that is closing leaves the log's connections.
pub fn closing_ones_are_shut_as_the_laws()
    ensures shut { ShutsAreTheLaws }
{}
