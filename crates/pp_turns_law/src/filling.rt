// What followers ask for (RFC 7233, sections 3.2 and 4.3; ours: chunk by chunk).
ghost use Rattle.pp_turns_law.specs.Fills.{AllFillAsTheLaws, OneFillsAsTheLaws};
ghost use Rattle.pp_turns_law.specs.Useless.{GivenUpAsTheLaws, GivenUpBesideGone, UselessIsTheLaws, WaitingAreInOrder};

/// A client asks for what its next bytes lack.
pub fn one_fills_as_the_laws()
    ensures one { OneFillsAsTheLaws }
{}

/// All that are looked at do, one behind the other.
pub fn all_fill_as_the_laws()
    ensures all { AllFillAsTheLaws }
{}

/// An ask without a place that brings nothing that its client wants next is of no use any more, and all of those are given up, the
/// same before an entry is noted as gone and behind it.
pub fn useless_asks_are_the_laws()
    ensures useless { UselessIsTheLaws }
    ensures order { WaitingAreInOrder }
    ensures given_up { GivenUpAsTheLaws }
    ensures beside { GivenUpBesideGone }
{}
