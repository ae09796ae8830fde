// The closing of a client.
ghost use Rattle.pp_clients_obey.specs.Closing.{CutsLead, LossesLead, ShutsLead};

/// A client whose writing fails, and one that is cut, for whichever cause is due, count as closed; and its connection is closed.
pub fn clients_are_closed()
    ensures lost { LossesLead }
    ensures cut { CutsLead }
    ensures shut { ShutsLead }
{}
