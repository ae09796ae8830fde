// Which client comes first.
ghost use Rattle.pp_turns_law.specs.Firsts.{FirstDueIsTheLaws, MemoryIsGivenOrRefused};

/// What is due first is found, or memory is refused for the row of one to whom something is due.
pub fn memory_is_given_or_refused()
    ensures splits { MemoryIsGivenOrRefused }
{}

/// The first of all for whom something is due. Its row comes in, and no other.
pub fn first_due_is_the_laws()
    ensures first { FirstDueIsTheLaws }
{}
