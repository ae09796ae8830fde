// A decision that is taken.
ghost use Rattle.pp_clients_obey.specs.Deciding.{AsksLead, FollowsLead, PagesLead, RelaysLead};

/// A page is given, an origin is asked, or a reply is decided, by the row of its key or by the response that is passed.
pub fn decisions_are_taken()
    ensures pages { PagesLead }
    ensures asks { AsksLead }
    ensures follows { FollowsLead }
    ensures relays { RelaysLead }
{}
