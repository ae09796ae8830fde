// Memory for the keys of heads that are read.
ghost use Rattle.pp_events_law.specs.Keys.{ClientReadsGiveKeys, ClientWritesGiveKeys, EndedRepliesGiveKeys, HandlesGiveKeys, OriginWritesGiveKeys};

/// It was given for each, in a life that did not go astray; and one that did stays so, over each event.
pub fn keys_are_given_unless_astray()
    ensures reads { ClientReadsGiveKeys }
    ensures replies { EndedRepliesGiveKeys }
    ensures writes { ClientWritesGiveKeys }
    ensures asks { OriginWritesGiveKeys }
    ensures each { HandlesGiveKeys }
{}
