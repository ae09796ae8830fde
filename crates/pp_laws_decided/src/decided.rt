// What was decided, and how far a reply goes.
ghost use Rattle.pp_laws_decided.specs.Decided.{TurnsAreDecided};

/// A reply that has not begun has the span of its decision, in the version that it is read from; and none goes on behind its end.
pub fn replies_are_decided()
    ensures decided { TurnsAreDecided }
{}
