// Of whom nothing is over.
ghost use Rattle.pp_comes_law.specs.Settled.{AwaitedOnesAreSettled};

/// No reply of a client that goes on is over, and of nobody all is answered.
pub fn awaited_ones_are_settled()
    ensures settled { AwaitedOnesAreSettled }
{}
