// What is counted of what is dropped, behind a write.
ghost use Rattle.pp_given_law.specs.Writes.{
  CountedAsLost,
  CountedAsOwed,
  CountedAsSaid,
  CountedAsWritten,
};

/// Behind the write to a client or to an origin.
pub fn what_is_dropped_stays_counted_as_one_is_written_to()
    ensures { CountedAsWritten }
{}

/// Where a read or a write is owed to an event.
pub fn what_is_dropped_stays_counted_as_a_call_is_owed()
    ensures { CountedAsOwed }
{}

/// Behind the write to a client, from where it is owed.
pub fn what_is_dropped_stays_counted_as_a_client_is_said_more()
    ensures { CountedAsSaid }
{}

/// Behind a write before which a chunk could not be read back.
pub fn what_is_dropped_stays_counted_as_a_chunk_is_lost()
    ensures { CountedAsLost }
{}
