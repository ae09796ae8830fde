// How large the cache may be.
ghost use Rattle.pp_grown_law.specs.Sized.{SizeAsKept, SizeAsLeft, SizeAsSettled, SizeInEvents, SizeOverWaits, TurnsStaySized};

/// It may have as many chunks as were set, over each piece of a turn, and over all of it.
pub fn sizes_stay()
    ensures waits { SizeOverWaits }
    ensures events { SizeInEvents }
    ensures left { SizeAsLeft }
    ensures kept { SizeAsKept }
    ensures settled { SizeAsSettled }
    ensures turns { TurnsStaySized }
{}
