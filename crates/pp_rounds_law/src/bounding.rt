// What the cache has in memory, where a dial is refused.
ghost use Rattle.pp_rounds_law.specs.Bounds.{AsksLeaveBounded, EndsLeaveBounded, LossesLeaveBounded, RefusalsLeaveBounded, RowsLeaveBounded};

/// A row that is not known any more, an attempt that is lost, an exchange that is over and followers that ask leave the cache bounded.
pub fn refused_dials_leave_the_cache_bounded()
    ensures rows { RowsLeaveBounded }
    ensures losses { LossesLeaveBounded }
    ensures ends { EndsLeaveBounded }
    ensures asks { AsksLeaveBounded }
    ensures refusals { RefusalsLeaveBounded }
{}
