// A round goes step by step.
ghost use Rattle.pp_rounds_law.specs.Rounds.{RoundsEnd, RoundsLead};
ghost use Rattle.pp_rounds_law.specs.Steps.{ClosingsInARound, FollowingIsTheLaws, PlacesInARound};

/// Without a word: what nobody sees, and what followers ask for.
pub fn followers_of_a_round_are_the_laws()
    ensures following { FollowingIsTheLaws }
{}

/// Connections that are over are closed.
pub fn closings_of_a_round_are_the_laws()
    ensures closings { ClosingsInARound }
{}

/// Exchanges get their places, whatever dials answer.
pub fn places_of_a_round_are_the_laws()
    ensures places { PlacesInARound }
{}

/// All of it, one behind the other; and where nothing more is decided, nobody is left to be closed.
pub fn rounds_lead_as_by_the_law()
    ensures round { RoundsLead }
    ensures ends { RoundsEnd }
{}
