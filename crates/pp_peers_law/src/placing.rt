// Where an ask goes.
ghost use Rattle.pp_peers_law.specs.Places.{LoadsAreTheLaws, PlacesAreTheLaws};

/// What a connection carries.
pub fn loads_are_the_laws()
    ensures loads { LoadsAreTheLaws }
{}

/// The place of an ask, while no connection is closing.
pub fn places_are_the_laws()
    ensures places { PlacesAreTheLaws }
{}
