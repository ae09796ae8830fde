// What a read of an origin leaves as it was.
ghost use Rattle.pp_reads_law.specs.Stays.{ReadsStay};

/// Each client stays at its request, each connection keeps its number, and what the turn knows beside them stays.
pub fn reads_leave_clients_at_their_requests()
    ensures stays { ReadsStay }
{}
