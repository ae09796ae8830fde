// What the exchanges stand on, and what is no part of them.
ghost use Rattle.pp_flow_law.specs.Frames.{ClosingsAreTheLaws, DialsAreTheLaws, DropsAreTheLaws, FramesAreTheLaws};

/// What is neither an exchange nor a line may change.
pub fn frames_are_the_laws()
    ensures frames { FramesAreTheLaws }
{}

/// A connection is dialled, its cause to be closed has come, and it is gone.
pub fn connections_are_the_laws()
    ensures dials { DialsAreTheLaws }
    ensures closings { ClosingsAreTheLaws }
    ensures drops { DropsAreTheLaws }
{}
