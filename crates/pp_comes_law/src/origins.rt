// Events of connections to origins.
ghost use Rattle.pp_comes_law.specs.Origins.{BrokenOnesCome, OriginReadsCome, OriginWritesCome};

use pp_reads_law::origins_are_read_as_by_the_law;

/// Where one breaks, the exchanges of its line are over, or asked elsewhere.
pub fn broken_connections_come_as_by_the_law()
    ensures broken { BrokenOnesCome }
{}

/// Where one can be written to, it is asked what is left to ask there.
pub fn origins_are_asked_as_they_come()
    ensures asks { OriginWritesCome }
{}

/// Where one can be read, what it brings answers the exchanges of its line.
pub fn origins_are_read_as_they_come()
    ensures reads { OriginReadsCome }
{
    origins_are_read_as_by_the_law();
}
