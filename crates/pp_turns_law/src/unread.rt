// What nobody will see is not read on.
ghost use Rattle.pp_turns_law.specs.Unread.{DropsAreTheLaws, UnseenAreTheLaws};

/// Of one connection, and of all, one behind the other.
pub fn unseen_ones_are_dropped_as_the_laws()
    ensures drops { DropsAreTheLaws }
    ensures unseen { UnseenAreTheLaws }
{}
