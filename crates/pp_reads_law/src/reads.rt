// A whole read of an origin.
ghost use Rattle.pp_reads_law.specs.Reads.{ReadsAreGotAsTheLaws};

use crate::heads::heads_come_as_the_laws;

/// It is what the law gets of its bytes, one piece behind the other.
pub fn reads_are_got_as_the_laws()
    ensures reads { ReadsAreGotAsTheLaws }
{
    heads_come_as_the_laws();
}
