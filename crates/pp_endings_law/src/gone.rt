// The connection of an origin ended, or broke.
ghost use Rattle.pp_endings_law.specs.Gone.{EndsAreTheLaws, GonesAreTheLaws};

/// Its line is over, or asked elsewhere; and then replies that are over end.
pub fn ended_ones_are_gone_as_the_laws()
    ensures ends { EndsAreTheLaws }
    ensures gones { GonesAreTheLaws }
{}
