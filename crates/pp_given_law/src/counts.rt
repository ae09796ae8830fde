// What is counted of what is dropped.
ghost use Rattle.pp_given_law.specs.Counts.{
  CountedAsAccepted,
  CountedAsBroken,
  CountedAsHeard,
  CountedAsKept,
  CountedAsLeft,
  CountedAsReached,
  CountedAsStopped,
  CountedAsTicked,
};
ghost use Rattle.pp_given_law.specs.Begins.{CountedAsRepliesBegin};
ghost use Rattle.pp_given_law.specs.Laws.{CountedOverWaits};

/// As much as came, over a wait.
pub fn what_is_dropped_stays_counted_over_waits()
    ensures { CountedOverWaits }
{}

/// Behind what leaves memory.
pub fn what_is_dropped_stays_counted_as_memory_is_left()
    ensures { CountedAsLeft }
{}

/// Behind what is kept.
pub fn what_is_dropped_stays_counted_as_rows_are_kept()
    ensures { CountedAsKept }
{}

/// Behind Stop.
pub fn what_is_dropped_stays_counted_as_all_stops()
    ensures { CountedAsStopped }
{}

/// Behind a client that comes.
pub fn what_is_dropped_stays_counted_as_a_client_comes()
    ensures { CountedAsAccepted }
{}

/// Behind a connection that was reached.
pub fn what_is_dropped_stays_counted_as_a_connection_is_reached()
    ensures { CountedAsReached }
{}

/// Behind a tick of the clock.
pub fn what_is_dropped_stays_counted_as_the_clock_ticks()
    ensures { CountedAsTicked }
{}

/// Behind the read of a client.
pub fn what_is_dropped_stays_counted_as_a_client_is_read()
    ensures { CountedAsHeard }
{}

/// Behind the connection of an origin that breaks.
pub fn what_is_dropped_stays_counted_as_a_connection_breaks()
    ensures { CountedAsBroken }
{}

/// As replies begin at the end of a turn.
pub fn what_is_dropped_stays_counted_as_replies_begin()
    ensures { CountedAsRepliesBegin }
{}
