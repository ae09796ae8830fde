// What leaves memory behind an event.
ghost use Rattle.pp_evicting_law.specs.Evicting.{LeavingIsTheLaws};

/// Behind an event attempts count anew, rows and chunks leave memory, and asks that bring nothing are given up: where the law leads, up
/// to where the disk is next.
pub fn what_leaves_behind_events_is_the_laws()
    ensures leaving { LeavingIsTheLaws }
{}
