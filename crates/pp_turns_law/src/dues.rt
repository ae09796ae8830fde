// What is due.
ghost use Rattle.pp_turns_law.specs.Dues.{DecidesAsTheLaw, DryIsTheLaws, DuesAreTheLaws, OffersAreTheLaws, PatienceIsTheLaws, StandingIsTheLaws, SupersededIsTheLaws};

/// Whether the row that a reply was decided by stands, and whether a request may wait on.
pub fn standing_is_the_laws()
    ensures standing { StandingIsTheLaws }
    ensures waiting { PatienceIsTheLaws }
{}

/// What is there to be said, and whether nothing is.
pub fn offers_are_the_laws()
    ensures offers { OffersAreTheLaws }
    ensures dry { DryIsTheLaws }
{}

/// Whether another version stands, and of this one nothing more comes.
pub fn superseded_is_the_laws()
    ensures superseded { SupersededIsTheLaws }
{}

/// What is decided of a request.
pub fn requests_are_decided_as_the_laws()
    ensures decided { DecidesAsTheLaw }
{}

/// What is due.
pub fn dues_are_the_laws()
    ensures dues { DuesAreTheLaws }
{}
