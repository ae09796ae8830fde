// What a decision that is taken leaves.
ghost use Rattle.pp_turns_law.specs.Decides.{AsksAreTheLaws, LeavesAreTheLaws, MarksAreTheLaws, RefusalsAreTheLaws, RelaysAreTheLaws};

/// The row of its key is marked; the request leaves the exchange that it asked; a page is its reply; an origin is asked; and a response that is passed is its reply.
pub fn decisions_are_the_laws()
    ensures marks { MarksAreTheLaws }
    ensures leaves { LeavesAreTheLaws }
    ensures pages { RefusalsAreTheLaws }
    ensures asks { AsksAreTheLaws }
    ensures relays { RelaysAreTheLaws }
{}
