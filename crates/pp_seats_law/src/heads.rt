// What is kept of a head is what the law reads in it.
ghost use Rattle.pp_seats_law.specs.Heads.{FrontsAreReadAsTheLaws, FrontsAreTheLaws};

/// What is kept of a head that was heard whole, and what is read of that.
pub fn fronts_are_the_laws()
    ensures kept { FrontsAreTheLaws }
    ensures read { FrontsAreReadAsTheLaws }
{}
