// What is read of the exchanges.
ghost use Rattle.pp_flow_law.specs.Reads.{AskersAreTheLaws, CountsAreTheLaws, EntriesAreTheLaws, LinesAreTheLaws, NextsAreTheLaws, PlacesAreTheLaws, WaitsAreTheLaws};

/// How many there are, the number of the next, and the exchange with a number.
pub fn counts_are_the_laws()
    ensures counts { CountsAreTheLaws }
    ensures entries { EntriesAreTheLaws }
{}

/// Whether one is there without a place, and whether with one.
pub fn places_are_the_laws()
    ensures waits { WaitsAreTheLaws }
    ensures places { PlacesAreTheLaws }
{}

/// The one that a client's request asks.
pub fn askers_are_the_laws()
    ensures askers { AskersAreTheLaws }
{}

/// The next without a place.
pub fn nexts_are_the_laws()
    ensures nexts { NextsAreTheLaws }
{}

/// What stands in a line.
pub fn lines_are_the_laws()
    ensures lines { LinesAreTheLaws }
{}
