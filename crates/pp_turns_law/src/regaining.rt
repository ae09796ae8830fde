// Attempts count anew.
ghost use Rattle.pp_turns_law.specs.Regains.{RegainsAreTheLaws, RegainsOnce};

/// Of those who are looked at; of the others none would; and twice is once.
pub fn attempts_count_as_the_laws()
    ensures regained { RegainsAreTheLaws }
    ensures once { RegainsOnce }
{}
