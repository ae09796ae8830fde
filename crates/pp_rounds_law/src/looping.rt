// Rounds, one behind the other.
ghost use Rattle.pp_rounds_law.specs.Loops.{LoopsLead};

/// As long as one brings decisions they lead on; behind the last nothing is due.
pub fn loops_lead_as_by_the_law()
    ensures loops { LoopsLead }
{}
