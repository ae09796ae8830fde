// A response is whole.
ghost use Rattle.pp_states_law.specs.Endings.{ClosesBehindAreTheLaws, RestsAreTheLaws};

/// The exchange that stands first in its line is over, and the connection rests, or is closed.
pub fn responses_end_as_the_laws()
    ensures rests { RestsAreTheLaws }
    ensures closes { ClosesBehindAreTheLaws }
{}
