// Dials, wherever the places of a round come to.
ghost use Rattle.pp_rounds_law.specs.Dials.{AllDialsMayBeRefused, DialsMayBeRefused};

/// One that is come to, and then each.
pub fn dials_may_be_refused()
    ensures dials { DialsMayBeRefused }
    ensures all { AllDialsMayBeRefused }
{}
