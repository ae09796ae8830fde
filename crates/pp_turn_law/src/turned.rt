// All turns of a life.
ghost use Rattle.pp_turn_law.specs.Turned.{EventsAreTaken, LivesGoOn, TurnsGoOnUpTo};

use pp_comes_law::origins_are_read_as_they_come;
use pp_given_law::what_is_dropped_stays_counted_as_an_origin_is_read;
use pp_joints_law::reads_come_with_what_they_clear;

/// Each event of each turn of a life is taken.
pub fn events_are_taken()
    ensures { EventsAreTaken }
{
    origins_are_read_as_they_come();
    reads_come_with_what_they_clear();
    what_is_dropped_stays_counted_as_an_origin_is_read();
}

/// From any wait, and from where a life listens, each turn goes on from where the one before it led, beside a log that obeys the law, until Stop
/// comes, or as many were made as were set; and the log may end there.
pub fn lives_go_on()
    ensures turns { TurnsGoOnUpTo }
    ensures lives { LivesGoOn }
{
    events_are_taken();
}
