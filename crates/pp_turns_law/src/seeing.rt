// What nobody will see of a line (RFC 2616, section 8.1.4).
ghost use Rattle.pp_turns_law.specs.Unseen.{UnseenIsTheLaws};

/// Nobody will see what comes of the first exchange of a line.
pub fn unseen_ones_are_the_laws()
    ensures unseen { UnseenIsTheLaws }
{}
