// What is held is not asked for.
ghost use Rattle.pp_laws_waits.specs.Held.{HeldAsksNothing, HitAsksNothing};

/// Where a decision is taken that is answered by what is known, no exchange begins.
pub fn hits_ask_nothing()
    ensures nothing { HitAsksNothing }
{}

/// Where the next byte of a follower is held, nothing is asked for it.
pub fn held_bytes_are_not_asked()
    ensures nothing { HeldAsksNothing }
{}
