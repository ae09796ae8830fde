// What is held of a span, and what a follower asks for (RFC 7233, section 3.2; ours: chunk by chunk).
ghost use Rattle.pp_turns_law.specs.Needs.{NeedsAreTheLaws};
ghost use Rattle.pp_turns_law.specs.Spans.{HeldSpansAreTheLaws};

/// The span of bytes that are not there and do not come, from the next byte's chunk on.
pub fn needs_are_the_laws()
    ensures needs { NeedsAreTheLaws }
{}

/// Each offset of a span is held.
pub fn spans_are_the_laws()
    ensures spans { HeldSpansAreTheLaws }
{}
