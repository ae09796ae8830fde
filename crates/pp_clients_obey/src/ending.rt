// A reply that is over.
ghost use Rattle.pp_clients_obey.specs.Ending.{EndsLead, LastsLead, RestsAreTheLaws};

/// As long as no reply is over, a client stays, or is closed where nothing of it is left to answer; behind the last bytes of a
/// reply the next request stands; and behind the last reply the client is closed.
pub fn replies_end()
    ensures rests { RestsAreTheLaws }
    ensures next { EndsLead }
    ensures last { LastsLead }
{}
