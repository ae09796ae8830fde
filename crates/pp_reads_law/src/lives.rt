// Lives that were given.
ghost use Rattle.pp_reads_law.specs.Lives.{LivesGoOnInReads, LivesGoOnToMoments};

/// Each that clients name was given, no two instances have one slot, and who is followed stays, amid a read and behind it.
pub fn lives_go_on_in_reads()
    ensures reads { LivesGoOnInReads }
    ensures moments { LivesGoOnToMoments }
{}
