// A turn behind its keeping.
ghost use Rattle.pp_kept_law.specs.Turns.{TurnsAreShown};

/// A turn that shows the law's state shows it behind its keeping.
pub fn turns_are_shown_behind_keepings()
    ensures { TurnsAreShown }
{}
