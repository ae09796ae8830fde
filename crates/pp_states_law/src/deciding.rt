// A request leaves its exchange, and asks another.
ghost use Rattle.pp_states_law.specs.Decisions.{AsksAreTheLaws, BeginsAreTheLaws, LeavesAreTheLaws};

/// At a decision it leaves the exchange that it asked; one begins; or both.
pub fn decisions_are_the_laws()
    ensures leaves { LeavesAreTheLaws }
    ensures begins { BeginsAreTheLaws }
    ensures asks { AsksAreTheLaws }
{}
