// What is no response, or comes too early.
ghost use Rattle.pp_reads_law.specs.Bads.{BadBodiesAreTheLaws, BadHeadsAreTheLaws, EarlyOnesAreTheLaws};

/// Its connection is closed: before an ask was asked whole, instead of a head, and amid a body.
pub fn bad_responses_are_the_laws()
    ensures early { EarlyOnesAreTheLaws }
    ensures heads { BadHeadsAreTheLaws }
    ensures bodies { BadBodiesAreTheLaws }
{}
