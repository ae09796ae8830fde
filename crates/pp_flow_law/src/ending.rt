// One of the exchanges is over, or its request leaves it at a decision.
ghost use Rattle.pp_flow_law.specs.Changes.{AsksBeginAsTheLaws, DecisionsLeaveAsTheLaws, EndsAreTheLaws};

/// It is out, and in no line.
pub fn ends_are_the_laws()
    ensures ends { EndsAreTheLaws }
{}

/// At a decision the request leaves the one that it asked.
pub fn decisions_leave_as_the_laws()
    ensures decisions { DecisionsLeaveAsTheLaws }
{}

/// It leaves that, and asks the one that begins.
pub fn asks_begin_as_the_laws()
    ensures begins { AsksBeginAsTheLaws }
{}
