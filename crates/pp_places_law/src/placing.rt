// One exchange gets its place.
ghost use Rattle.pp_places_law.specs.Places.{DialsAreTheLaws, PlacesAreTheLaws, PutsAreTheLaws, WaysAreTheLaws};

/// Where it is asked, and on a line without a happening.
pub fn places_are_the_laws()
    ensures places { PlacesAreTheLaws }
    ensures puts { PutsAreTheLaws }
{}

/// A connection is dialled for it.
pub fn connections_are_dialled_as_the_laws()
    ensures dials { DialsAreTheLaws }
{}

/// An idle connection gives way to a new one.
pub fn connections_give_way_as_the_laws()
    ensures ways { WaysAreTheLaws }
{}
