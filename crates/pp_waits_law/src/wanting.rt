// What is waited for.
ghost use Rattle.pp_waits_law.specs.Wanted.{AcceptsAreWanted, AsksAreWanted, GetsAreWanted, NoMoreIsWritten, SaysAreWanted};

/// Whether a client is accepted, and which origins are asked and read.
pub fn accepts_and_origins_are_wanted()
    ensures accepts { AcceptsAreWanted }
    ensures asks { AsksAreWanted }
    ensures gets { GetsAreWanted }
{}

/// A client is written to where there is something to say to it, and nobody else is.
pub fn says_are_wanted()
    ensures says { SaysAreWanted }
    ensures no_more { NoMoreIsWritten }
{}
