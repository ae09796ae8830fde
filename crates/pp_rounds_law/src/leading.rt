// The places of a round, where dials may be refused.
ghost use Rattle.pp_rounds_law.specs.Led.{PlacesLead};

/// From a log that obeys the law they lead where the law leads, as often as the outside may fail.
pub fn places_lead_where_dials_are_refused()
    ensures places { PlacesLead }
{}
