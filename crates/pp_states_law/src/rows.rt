// A row is cleared.
ghost use Rattle.pp_states_law.specs.Rows.{ClearsAreTheLaws};

/// The row of a key is not known any more.
pub fn clears_are_the_laws()
    ensures clears { ClearsAreTheLaws }
{}
