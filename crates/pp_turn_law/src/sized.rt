// How large the cache may be.
ghost use Rattle.pp_turn_law.specs.Sized.{SettingsStay, SizeStaysSet, TurnsKeepSize};

/// From one wait to the next it may have as many chunks, and each exchange has a number of its own still; and so as many as the settings of the
/// life say, which stay.
pub fn turns_keep_size()
    ensures turns { TurnsKeepSize }
    ensures settings { SettingsStay }
    ensures set { SizeStaysSet }
{}
