// What comes on a connection.
ghost use Rattle.pp_peers_law.specs.Comes.{AwaitedIsTheLaws, BodiesAreTheLaws, EarlyIsRefused, EndingsAreTheLaws, HeadsAreTheLaws, ReadsBeginAsTheLaws};

/// Whose response comes next, and whether it is early.
pub fn awaited_is_the_laws()
    ensures awaited { AwaitedIsTheLaws }
{}

/// The heads that come before the body of a response.
pub fn heads_are_the_laws()
    ensures heads { HeadsAreTheLaws }
    ensures early { EarlyIsRefused }
{}

/// The body of a response, as each read brings more of it.
pub fn bodies_are_the_laws()
    ensures begins { ReadsBeginAsTheLaws }
    ensures bodies { BodiesAreTheLaws }
{}

/// What the end of the connection makes of the response that comes.
pub fn endings_are_the_laws()
    ensures endings { EndingsAreTheLaws }
{}
