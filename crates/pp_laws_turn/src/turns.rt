// What holds in each state that a lawful log may go on as from.
ghost use Rattle.pp_laws_turn.specs.SoundTurn.{TurnsAreSound};

/// In each state that a lawful log may go on as from numbers are distinct, there is no more of anything than so many,
/// what clients follow is there, each exchange is for a client that goes on, and one that goes alone has no other in its
/// line.
pub fn turns_are_sound()
    ensures sound { TurnsAreSound }
{}
