// A cut is found.
ghost use Rattle.pp_deciding_law.specs.Cuts.{CutsLead, CutsStand};

/// Its note is permitted, and leads where the law leads.
pub fn cuts_lead_as_by_the_law()
    ensures leads { CutsLead }
{}

/// Behind it the turn stands as before it.
pub fn turns_stand_behind_cuts()
    ensures stand { CutsStand }
{}
