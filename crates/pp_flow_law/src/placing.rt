// One of the exchanges gets a place, or loses it.
ghost use Rattle.pp_flow_law.specs.Changes.{PutsAreTheLaws, UnplacesAreTheLaws};

/// It is the last of that line.
pub fn puts_are_the_laws()
    ensures puts { PutsAreTheLaws }
{}

/// It waits again, where those stand that began before and behind it.
pub fn unplaces_are_the_laws()
    ensures unplaces { UnplacesAreTheLaws }
{}
