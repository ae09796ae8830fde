// An origin is read.
ghost use Rattle.pp_reads_law.specs.Readable.{OriginReadsLead, ReadingsLead};

use crate::heads::heads_come_as_the_laws;

/// Nothing came yet, its connection ended or broke, or bytes came. From where the read is owed, and from the wait.
pub fn origins_are_read_as_by_the_law()
    ensures leads { ReadingsLead }
    ensures whole { OriginReadsLead }
{
    heads_come_as_the_laws();
}
