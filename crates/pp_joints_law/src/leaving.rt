// What leaves memory behind an event.
ghost use Rattle.pp_joints_law.specs.Leaving.{LeavingsCarry, MemoryMayBeLeft};

/// Where it is handled, what leaves memory may leave, and what is carried stands behind.
pub fn memory_may_be_left_behind_events()
    ensures may { MemoryMayBeLeft }
    ensures carries { LeavingsCarry }
{}
