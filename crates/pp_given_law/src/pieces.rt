// What is counted of what is dropped, amid the read of an origin.
ghost use Rattle.pp_given_law.specs.Pieces.{
  CountedAtMoments,
  CountedBehindHeads,
  CountedBehindPieces,
  LinesAreAnsweredInReads,
};
ghost use Rattle.pp_given_law.specs.Reads.{CountedAsRead};

use crate::came::reads_can_be_counted;
use pp_reads_law::heads_come_as_the_laws;

/// Behind a piece of a body.
pub fn what_is_dropped_stays_counted_behind_pieces()
    ensures { CountedBehindPieces }
{}

/// Behind a head that came.
pub fn what_is_dropped_stays_counted_behind_heads()
    ensures { CountedBehindHeads }
{}

/// So at each moment of a read.
pub fn what_is_dropped_stays_counted_amid_reads()
    ensures { CountedAtMoments }
{
    heads_come_as_the_laws();
}

/// And behind all of it, from the wait on.
pub fn what_is_dropped_stays_counted_as_an_origin_is_read()
    ensures { CountedAsRead }
{
    heads_come_as_the_laws();
    reads_can_be_counted();
}

/// A head came of the first of a line alone, whose answer is under way.
pub fn lines_are_answered_in_reads()
    ensures { LinesAreAnsweredInReads }
{}
