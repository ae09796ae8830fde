// From one life to the next.
ghost use Rattle.pp_recover.specs.Opening.{FilesAreBacked};

/// Whatever a crash leaves of a folder that is backed, each entry of it holds only bytes that were sent: the
/// premise under which `open` goes on so in the next life.
pub fn what_is_left_is_backed()
    ensures { FilesAreBacked }
{}
