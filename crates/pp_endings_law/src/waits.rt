// What is waited for at the end of a turn, and what a wait changes.
ghost use Rattle.pp_endings_law.specs.Waits.{ExchangesRestAsTheLaws, InstancesRestAsTheLaws, OriginsAreAskedAsTheLaws, OriginsAreReadAsTheLaws, ReadsAreRight, WantedBehindClients};

/// Which connections to origins are read.
pub fn origins_are_read_as_the_laws()
    ensures reads { OriginsAreReadAsTheLaws }
    ensures right { ReadsAreRight }
{}

/// And which are written to.
pub fn origins_are_asked_as_the_laws()
    ensures asks { OriginsAreAskedAsTheLaws }
{}

/// At a wait it is noted how far each body is wanted.
pub fn exchanges_rest_as_the_laws()
    ensures rests { ExchangesRestAsTheLaws }
    ensures behind { WantedBehindClients }
{}

/// Behind a wait no instance is new.
pub fn instances_rest_as_the_laws()
    ensures rests { InstancesRestAsTheLaws }
{}
