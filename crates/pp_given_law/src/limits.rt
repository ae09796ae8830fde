// Heads that are read.
ghost use Rattle.pp_given_law.specs.Heads.{HeadsAreShort};

/// Each has room, written anew under a name of at most 64 bytes.
pub fn heads_have_room()
    ensures { HeadsAreShort }
{}
