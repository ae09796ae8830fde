// Who waits, and what changes with that (ours).
ghost use Rattle.pp_turns_law.specs.Marks.{RestingIsTheLaws, SharingIsTheLaws, TicksAreTheLaws, WaitingIsTheLaws, WaitsAreTheLaws};

/// Who shares another's ask, who waits for an exchange, and to whom of those nothing is to be said.
pub fn waiting_is_the_laws()
    ensures sharing { SharingIsTheLaws }
    ensures exchanges { WaitsAreTheLaws }
    ensures waiting { WaitingIsTheLaws }
{}

/// At a tick those are marked anew; at a wait those who share an ask wait for that.
pub fn marks_are_the_laws()
    ensures ticks { TicksAreTheLaws }
    ensures waits { RestingIsTheLaws }
{}
