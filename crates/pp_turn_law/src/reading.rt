// An origin that is read.
ghost use Rattle.pp_turn_law.specs.Read.{OriginReadsAreHandled};

use pp_comes_law::origins_are_read_as_they_come;
use pp_given_law::what_is_dropped_stays_counted_as_an_origin_is_read;
use pp_joints_law::reads_come_with_what_they_clear;

/// From the end of a turn, over its wait, to where an origin is read, whatever came.
pub fn origin_reads_are_handled()
    ensures { OriginReadsAreHandled }
{
    origins_are_read_as_they_come();
    reads_come_with_what_they_clear();
    what_is_dropped_stays_counted_as_an_origin_is_read();
}
