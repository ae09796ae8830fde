// What is kept on the disk, and which of its entries stand no more.
ghost use Rattle.pp_stays_law.specs.Laws.{DiskIsNoted, KeptOnesAreTheLaws, NamesHaveRoom, NamesKeepTheirRoom};

/// Where no name is noted yet there is room for all that may be.
pub fn names_have_room()
    ensures { NamesHaveRoom }
{}

/// And there is room still behind each step.
pub fn names_keep_their_room()
    ensures { NamesKeepTheirRoom }
{}

/// Which entries stand no more is noted as by the law, behind each step.
pub fn entries_stay_noted()
    ensures { DiskIsNoted }
{}

/// So what is kept of each key, as long as it may come in, is what the law has of it.
pub fn kept_ones_are_the_laws()
    ensures { KeptOnesAreTheLaws }
{}
