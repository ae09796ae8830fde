// Numbers.
ghost use Rattle.pp_laws.specs.Numbers.{NumbersAreDistinct};

/// Clients, connections, exchanges and instances have numbers of their own in each lawful log, and a
/// new one gets a number above all that are there.
pub fn numbers_are_distinct()
    ensures numbers { NumbersAreDistinct }
{}
