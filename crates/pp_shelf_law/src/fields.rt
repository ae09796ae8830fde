// The fields of entries.
ghost use Rattle.pp_shelf_law.specs.AsKept.{AllowedOnesAreKept, DraftsStayAsKept, EachIsKeptSo, KeptOnesAreAllowed, LoadsStayAsKept, OpenedOnesAreAsKept, ReadOnesAreKept, SealsStayAsKept, TakingsStayAsKept};

/// Fields that an entry may have are those that are kept of them, and so are those of each row that is read; and those that are kept
/// of a response it may have, where what is renewed of them has room.
pub fn fields_that_are_read_are_kept()
    ensures allowed { AllowedOnesAreKept }
    ensures kept { KeptOnesAreAllowed }
    ensures read { ReadOnesAreKept }
{}

/// Each entry of a shelf has the fields that are kept of them: as it opens, and behind each call.
pub fn entries_stay_as_kept()
    ensures each { EachIsKeptSo }
    ensures opened { OpenedOnesAreAsKept }
    ensures drafted { DraftsStayAsKept }
    ensures sealed { SealsStayAsKept }
    ensures taken { TakingsStayAsKept }
    ensures loaded { LoadsStayAsKept }
{}
