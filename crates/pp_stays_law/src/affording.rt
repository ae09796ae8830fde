// Failures of the outside, in a lawful log.
ghost use Rattle.pp_stays_law.specs.Afforded.{WhatIsLawfulIsAfforded};

/// What leads on in a lawful log has no more of them than there may be.
pub fn what_is_lawful_is_afforded()
    ensures { WhatIsLawfulIsAfforded }
{}
