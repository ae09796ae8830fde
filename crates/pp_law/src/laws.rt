// Laws of the definitions themselves.
ghost use Rattle.pp_law.specs.Lawful.{EachPrefixIsLawful, LawfulHasNoFault, NoFaultIsLawful};

/// Each prefix of a lawful log is lawful, and a log has no first fault exactly where it is lawful.
pub fn prefixes_and_faults()
    ensures prefixes { EachPrefixIsLawful }
    ensures sound { NoFaultIsLawful }
    ensures complete { LawfulHasNoFault }
{}
