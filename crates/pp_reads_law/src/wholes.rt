// A response is whole.
ghost use Rattle.pp_reads_law.specs.Wholes.{WholesAreTheLaws};

/// Its exchange is over, and the connection rests behind it or is closed.
pub fn whole_responses_end_as_the_laws()
    ensures wholes { WholesAreTheLaws }
{}
