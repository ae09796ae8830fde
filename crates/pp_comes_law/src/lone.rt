// What goes alone.
ghost use Rattle.pp_comes_law.specs.Lone.{AwaitedLoneGoWithClients};

/// What goes alone, as it is passed, and is not answered yet, has its client, where an event is awaited and as long as a read or a write
/// is owed: it was dropped with its connection otherwise, as its turn ended.
pub fn lone_asks_go_with_clients()
    ensures awaited { AwaitedLoneGoWithClients }
{}
