// Bytes of a response join the instance that its exchange is bound to.
ghost use Rattle.pp_bodies_law.specs.Bytes.{DeliversAreTheLaws, JoinsAreTheLaws};

/// They join it, and as many fewer are to come.
pub fn joins_are_the_laws()
    ensures joins { JoinsAreTheLaws }
{}

/// Data of a response came: they join, and are passed.
pub fn delivers_are_the_laws()
    ensures delivers { DeliversAreTheLaws }
{}
