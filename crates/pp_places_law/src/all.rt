// All exchanges without a place get theirs.
ghost use Rattle.pp_places_law.specs.Places.{AllPlacesAreTheLaws};

/// One behind the other, where no dial is refused.
pub fn all_places_are_the_laws()
    ensures all { AllPlacesAreTheLaws }
{}
