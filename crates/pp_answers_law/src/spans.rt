// The span that comes.
ghost use Rattle.pp_answers_law.specs.Spans.{SpansAreTheLaws};

/// Of a part it is told by the head, and else it is all.
pub fn spans_are_the_laws()
    ensures spans { SpansAreTheLaws }
{}
