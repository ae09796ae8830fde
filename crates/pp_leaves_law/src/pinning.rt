// What may not leave memory.
ghost use Rattle.pp_leaves_law.specs.Pinned.{BusyIsTheLaws, PinnedIsTheLaws};

/// The chunks in which the next byte of a client or of an exchange lies, and the rows that exchanges are bound to.
pub fn pins_are_the_laws()
    ensures pinned { PinnedIsTheLaws }
    ensures busy { BusyIsTheLaws }
{}
