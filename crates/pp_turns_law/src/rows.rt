// Kept rows that come into memory.
ghost use Rattle.pp_turns_law.specs.Rows.{DuesStayAsTheyWere, RowsComeInAsTheLaws};

/// What is due of all is as it was.
pub fn dues_stay_as_they_were()
    ensures dues { DuesStayAsTheyWere }
{}

/// The kept row of a key comes in: what the turn has shows the law's state with it.
pub fn rows_come_in_as_the_laws()
    ensures rows { RowsComeInAsTheLaws }
{}
