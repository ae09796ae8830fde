// A read of a client.
ghost use Rattle.pp_clients_obey.specs.Hearing.{HangUpsLead, NonesLead, ReadsLead};

/// What came is heard, and read as a request where there is none; no more comes; or none came yet.
pub fn reads_go_on()
    ensures heard { ReadsLead }
    ensures hung_up { HangUpsLead }
    ensures none { NonesLead }
{}
