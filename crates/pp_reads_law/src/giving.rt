// Memory for the keys of heads that are read in an event.
ghost use Rattle.pp_reads_law.specs.Keys.{EventsGiveKeys, OriginReadsGiveKeys};

/// It was given for each, in a life that did not go astray; and one that did stays so: by a read of an origin, and by each event.
pub fn events_give_keys_unless_astray()
    ensures reads { OriginReadsGiveKeys }
    ensures each { EventsGiveKeys }
{}
