// Rounds, and then replies begin.
ghost use Rattle.pp_rounds_law.specs.Serves.{ServesLead};

/// The turn may wait where they lead.
pub fn turns_serve_as_by_the_law()
    ensures serves { ServesLead }
{}
