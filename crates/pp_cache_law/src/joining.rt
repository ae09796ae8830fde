// Bytes that a read brings, from an origin or from the disk, join the chunks of the table, and of the cache alike.
ghost use Rattle.pp_cache_law.specs.Joins.{JoinsAreTheLaws, LoadsAreTheLaws, MarkIsEnough, RoomIsEnough};

/// What is not kept on the disk is added, or a chunk is read back from there, and finds room: the cache shows what the law makes of
/// its table.
pub fn joins_are_the_laws()
    ensures joins { JoinsAreTheLaws }
    ensures loads { LoadsAreTheLaws }
    ensures room { RoomIsEnough }
    ensures mark { MarkIsEnough }
{}
