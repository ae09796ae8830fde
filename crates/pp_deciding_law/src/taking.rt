// A decision is found, and taken.
ghost use Rattle.pp_deciding_law.specs.Behind.{DecisionsStand};
ghost use Rattle.pp_deciding_law.specs.Takes.{DecisionsLead};

/// Its notes are permitted, and lead where the law leads.
pub fn decisions_lead_as_by_the_law()
    ensures leads { DecisionsLead }
{}

/// Behind it the turn stands as before it.
pub fn turns_stand_behind_decisions()
    ensures stand { DecisionsStand }
{}
