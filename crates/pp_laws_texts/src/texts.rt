// The lines of a row.
ghost use Rattle.pp_laws_texts.specs.Texts.{HeadsHaveRoom, TurnsHaveLines};

/// The lines that are kept of a response have 18,432 bytes at most, in memory and on the disk; and a head that is made from a row has room
/// in the client's buffer.
pub fn lines_have_room()
    ensures lines { TurnsHaveLines }
    ensures heads { HeadsHaveRoom }
{}
