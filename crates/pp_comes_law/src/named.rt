// What clients name is there.
ghost use Rattle.pp_comes_law.specs.Named.{AwaitedNamesAreThere, FollowedOnesAreThereAmidReads, FollowedOnesAreThereBehindReads, NamesAreGivenAmidReads, WokenNamesAreThere};

/// Where an event is awaited, and where somebody is woken by it.
pub fn names_are_there_as_events_come()
    ensures awaited { AwaitedNamesAreThere }
    ensures woken { WokenNamesAreThere }
{}

/// Amid a read of an origin each life was given, and amid it and behind it who is followed is there.
pub fn names_are_there_in_reads()
    ensures amid { NamesAreGivenAmidReads }
    ensures followed { FollowedOnesAreThereAmidReads }
    ensures behind { FollowedOnesAreThereBehindReads }
{}
