// A new row is made, and the table of the law is changed alike.
ghost use Rattle.pp_cache_law.specs.Kept.{KeptAreKept, RefreshedAreKept};
ghost use Rattle.pp_cache_law.specs.Refusals.{RefusalsAreTheLaws};
ghost use Rattle.pp_cache_law.specs.Rooms.{EnteringsWithRoomAreTheLaws, MakingsAreTheLaws};
ghost use Rattle.pp_cache_law.specs.Settles.{EnteringsAreTheLaws, SettlingsAreTheLaws};

/// A row of a key is made, in the place of its former one, or comes in from the disk: the cache shows what the law makes of its
/// table.
pub fn rows_are_made_as_the_laws()
    ensures settlings { SettlingsAreTheLaws }
    ensures enterings { EnteringsAreTheLaws }
{}

/// A response brings a row, or one comes in from the disk, for which another leaves memory where there is no room; or memory is
/// refused for it.
pub fn room_is_made_as_the_laws()
    ensures makings { MakingsAreTheLaws }
    ensures enterings { EnteringsWithRoomAreTheLaws }
    ensures refusals { RefusalsAreTheLaws }
{}

/// The fields of a row are those that are kept of them: so one that is drafted comes back into memory with the fields that it had.
pub fn fields_stay_kept()
    ensures kept { KeptAreKept }
    ensures refreshed { RefreshedAreKept }
{}
