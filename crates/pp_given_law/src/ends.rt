// What is counted of what is dropped, where an origin ends.
ghost use Rattle.pp_given_law.specs.Ends.{CountedAsEnded};

/// Behind the read of an origin that brings nothing of a response.
pub fn what_is_dropped_stays_counted_as_an_origin_ends()
    ensures { CountedAsEnded }
{}
