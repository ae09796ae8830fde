// What is noted for the disk.
ghost use Rattle.pp_given_law.specs.MayNote.{FewNamesHaveRoom, NamesAreFewAtFirst, NamesStayFew, NobodyHasNames, RowsMayBeNoted};

/// Where decisions begin there are at most 768 names; and as a life begins there is none.
pub fn names_are_few_at_first()
    ensures first { NamesAreFewAtFirst }
    ensures nobody { NobodyHasNames }
{}

/// No step of decisions and rounds makes them more; and there is room to note so few.
pub fn names_stay_few()
    ensures stay { NamesStayFew }
    ensures room { FewNamesHaveRoom }
{}

/// So behind the wait the name of each row may be noted.
pub fn rows_may_be_noted()
    ensures { RowsMayBeNoted }
{}
