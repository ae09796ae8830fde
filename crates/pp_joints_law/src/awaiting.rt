// From the wait to an event.
ghost use Rattle.pp_joints_law.specs.Awaiting.{GivenOnesAreTheLaws, RestedOnesAwait};

/// Behind its wait a turn stands where an event is awaited, and each client can be decided; and memory was refused for no client's row of the
/// law's, where it was for none of the program's.
pub fn turns_await_behind_waits()
    ensures given { GivenOnesAreTheLaws }
    ensures awaits { RestedOnesAwait }
{}
