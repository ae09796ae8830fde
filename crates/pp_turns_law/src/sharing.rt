// What a request waits for that another has asked for already (ours: one fetch for many).
ghost use Rattle.pp_turns_law.specs.Sharing.{AwaitedIsTheLaws, SharedAsksAreTheLaws};

/// The exchange that is shared, and whether its answer is awaited.
pub fn shared_asks_are_the_laws()
    ensures shared { SharedAsksAreTheLaws }
    ensures awaited { AwaitedIsTheLaws }
{}
