// What a client sends is read as the law reads it.
ghost use Rattle.pp_seats_law.specs.Reads.{HangUpsAreTheLaws, NextRequestsAreTheLaws, ReadsAreTheLaws};

/// What came is heard, and read as a request where there is none; nothing more comes; or the next request stands behind a
/// reply that is over: the seat shows what the law makes of its client.
pub fn reads_are_the_laws()
    ensures read { ReadsAreTheLaws }
    ensures hung_up { HangUpsAreTheLaws }
    ensures next { NextRequestsAreTheLaws }
{}
