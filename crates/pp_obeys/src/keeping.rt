// What the contract of a call is good for.
ghost use Rattle.pp_obeys.specs.Calls.{AddedOnesKeep, AdditionsJoin, CallsJoin, CalmOnesAdd, DonePhasesKeep, LeadsJoin, PermittedCallsKeep, StandingIsLawful};

/// A call that appends what is permitted keeps what stands; so do two, one behind the other, and a phase that is done; and where
/// it stands, the log is lawful.
pub fn calls_keep_the_law()
    ensures lawful { StandingIsLawful }
    ensures permitted { PermittedCallsKeep }
    ensures joined { CallsJoin }
    ensures done { DonePhasesKeep }
{}

/// So do several happenings, each of which may come where it comes; and they lead to one state, one behind the other.
pub fn added_ones_keep_the_law()
    ensures added { AddedOnesKeep }
    ensures calm { CalmOnesAdd }
    ensures joined { AdditionsJoin }
    ensures lead { LeadsJoin }
{}
