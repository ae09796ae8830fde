// A head that came, with what stands before it.
ghost use Rattle.pp_reads_law.specs.Clears.{HeadsAreGotThere};

/// Nothing but what precedes the head is dropped, and fewer bytes follow than came.
pub fn heads_are_got_there()
    ensures heads { HeadsAreGotThere }
{}
