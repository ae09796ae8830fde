// How far counts get.
ghost use Rattle.pp_laws_sides.specs.Counts.{CountsAreFarFromTheirEnds, ExchangesAreCounted, RequestsAreCounted, RowsAreCounted};

/// In each state that a lawful log goes on as from, no more exchanges were begun in this life than 4,096 for each happening of the log, and
/// for one happening more.
pub fn exchanges_are_counted()
    ensures exchanges { ExchangesAreCounted }
{}

/// No more instances were made than 65,536 for each happening.
pub fn rows_are_counted()
    ensures rows { RowsAreCounted }
{}

/// No client is at a later request than 256 for each happening.
pub fn requests_are_counted()
    ensures requests { RequestsAreCounted }
{}

/// So neither count of exchanges nor of requests comes near the end of 64 bits where the log has fewer happenings than 2 ^ 50.
pub fn counts_are_far_from_their_ends()
    ensures far { CountsAreFarFromTheirEnds }
{}
