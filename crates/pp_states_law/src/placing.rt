// An exchange gets a place.
ghost use Rattle.pp_states_law.specs.Puts.{PutsAreTheLaws};

/// On a connection that is there and goes on, as the last of its line.
pub fn puts_are_the_laws()
    ensures puts { PutsAreTheLaws }
{}
