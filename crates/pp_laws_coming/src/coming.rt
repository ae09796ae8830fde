// What an exchange and its client tell of each other.
ghost use Rattle.pp_laws_coming.specs.Coming.{AsksAreTold};

/// In each state that a lawful log may go on as from nothing is passed to the client of an exchange before the head of its response,
/// and as long as the exchange is there, more of what is passed is to come. For its own a client waits up to that head. One that is
/// nobody's and has no place fills a hole, and behind the phase in which asks are given up there is none.
pub fn what_is_passed_is_to_come()
    ensures told { AsksAreTold }
{}
