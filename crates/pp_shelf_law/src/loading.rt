// A chunk is read back.
ghost use Rattle.pp_shelf_law.specs.Loads.{LoadedBytesAreTheLaws, LoadsAreTheLaws, UnreadsAreTheLaws};

/// It may be noted as loaded, and has the bytes that the law puts there; or it cannot be read, and its entry is lost.
pub fn what_is_loaded_is_the_laws()
    ensures loads { LoadsAreTheLaws }
    ensures bytes { LoadedBytesAreTheLaws }
    ensures unread { UnreadsAreTheLaws }
{}
