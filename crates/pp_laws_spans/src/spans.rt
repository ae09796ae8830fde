// The span of a response.
ghost use Rattle.pp_laws_spans.specs.Spans.{BodiesFillSpans, SpansAreWithin};

/// What is to come of a response that has a version lies within that version; and its body brings no more.
pub fn bodies_stay_within()
    ensures spans { SpansAreWithin }
    ensures bodies { BodiesFillSpans }
{}
