// A write to a client.
ghost use Rattle.pp_clients_obey.specs.Saying.{WritesLead};

/// The bytes are said, and some of the reply are left.
pub fn writes_go_on()
    ensures said { WritesLead }
{}
