// What is kept of a key.
ghost use Rattle.pp_shelf_law.specs.Kept.{FreeNamesAreTheLaws, KeptOnesAreTheLaws, OthersAreClosed, RowsStandAlone};

/// It is the law's entry of the key; the same names are free for a new entry; and of a key the law has one row in memory.
pub fn what_is_kept_is_the_laws()
    ensures kept { KeptOnesAreTheLaws }
    ensures others { OthersAreClosed }
    ensures free { FreeNamesAreTheLaws }
    ensures alone { RowsStandAlone }
{}
