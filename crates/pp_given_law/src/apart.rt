// No origin has the number of a client that was read.
ghost use Rattle.pp_given_law.specs.Apart.{OriginsStayApart, ReadOnesAreClients};

/// Those that are read at a wait are clients of the turn behind it.
pub fn those_who_are_read_are_clients()
    ensures { ReadOnesAreClients }
{}

/// And at the next wait no origin has the number of one of them, however the log has gone on.
pub fn origins_stay_apart()
    ensures { OriginsStayApart }
{}
