// One exchange more, or none yet.
ghost use Rattle.pp_flow_law.specs.Changes.{BeginningsAreTheLaws, BeginsAreTheLaws};

/// There is none yet.
pub fn beginnings_are_the_laws()
    ensures beginnings { BeginningsAreTheLaws }
{}

/// One begins, as the last of those without a place.
pub fn begins_are_the_laws()
    ensures begins { BeginsAreTheLaws }
{}
