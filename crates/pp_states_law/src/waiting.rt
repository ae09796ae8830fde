// Who is waited for.
ghost use Rattle.pp_states_law.specs.Waiting.{RenewalsAreTheLaws, RestingAreTheLaws};

/// A tick marks the clients that wait, and the end of a turn notes the connections that are waited for.
pub fn waits_are_the_laws()
    ensures renewals { RenewalsAreTheLaws }
    ensures restings { RestingAreTheLaws }
{}
