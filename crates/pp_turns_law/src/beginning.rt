// Replies begin at the end of a turn.
ghost use Rattle.pp_turns_law.specs.Begins.{BeginsAreTheLaws, SeatsBeginAsTheLaws};

/// Of one client: its seat shows what the law makes of it.
pub fn seats_begin_as_the_laws()
    ensures seats { SeatsBeginAsTheLaws }
{}

/// Of all, one behind the other.
pub fn replies_begin_as_the_laws()
    ensures all { BeginsAreTheLaws }
{}
