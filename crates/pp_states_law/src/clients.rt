// One client is changed.
ghost use Rattle.pp_states_law.specs.Clients.{AskersAreTheLaws, ChangesAreTheLaws, NobodysAreTheLaws};

/// By its number, or as that of an exchange, which may have none.
pub fn changes_are_the_laws()
    ensures changes { ChangesAreTheLaws }
    ensures askers { AskersAreTheLaws }
    ensures nobodys { NobodysAreTheLaws }
{}
