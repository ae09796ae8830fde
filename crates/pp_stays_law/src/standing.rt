// All that stands in a turn, and what is counted.
ghost use Rattle.pp_stays_law.specs.Laws.{DecisionsLeaveCounts, TurnsStand};

/// Of what is dropped as much is counted as came, behind each decision.
pub fn decisions_leave_counts()
    ensures { DecisionsLeaveCounts }
{}

/// All of it stands behind each step of decisions and rounds.
pub fn turns_stand_through_decisions_and_rounds()
    ensures { TurnsStand }
{}
