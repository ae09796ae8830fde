// What is read of the cache is what the law reads of its table.
ghost use Rattle.pp_cache_law.specs.Reads.{BytesAreTheLaws, ExtentsAreTheLaws, GonePinsAreNone, HeldIsTheLaws, HolesAreTheLaws, IdleRowsAreTheLaws, InstancesAreTheLaws, PinsAreTheLaws, RetiredIsTheLaws, RoomIsTheLaws, RowsAreTheLaws, SpansAreTheLaws, UsedIsTheLaws, VersionsAreTheLaws, VictimsAreTheLaws};

/// The row of a key with its version; an instance by its id, whether it stands for its key, and how far it is kept on the disk.
pub fn instances_are_the_laws()
    ensures rows { RowsAreTheLaws }
    ensures versions { VersionsAreTheLaws }
    ensures instances { InstancesAreTheLaws }
    ensures retired { RetiredIsTheLaws }
    ensures extents { ExtentsAreTheLaws }
{}

/// What is held of a chunk, whether a byte is held, or a span, and the hole of a byte that is not.
pub fn bytes_are_the_laws()
    ensures bytes { BytesAreTheLaws }
    ensures held { HeldIsTheLaws }
    ensures spans { SpansAreTheLaws }
    ensures holes { HolesAreTheLaws }
{}

/// How many rows and chunks there are, and which of them is next to leave memory, where the same chunks are pinned.
pub fn leavings_are_the_laws()
    ensures room { RoomIsTheLaws }
    ensures idle { IdleRowsAreTheLaws }
    ensures used { UsedIsTheLaws }
    ensures victims { VictimsAreTheLaws }
    ensures pins { PinsAreTheLaws }
    ensures gone { GonePinsAreNone }
{}
