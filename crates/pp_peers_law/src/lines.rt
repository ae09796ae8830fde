// What becomes of a line.
ghost use Rattle.pp_peers_law.specs.Lines.{EndsAreTheLaws, PutsAreTheLaws};

/// An exchange that comes to a connection is the last of its line.
pub fn puts_are_the_laws()
    ensures puts { PutsAreTheLaws }
{}

/// The first of a line is out, once its response is whole.
pub fn ends_are_the_laws()
    ensures ends { EndsAreTheLaws }
{}
