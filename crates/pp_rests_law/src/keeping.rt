// What each lawful log leaves.
ghost use Rattle.pp_rests_law.specs.Heads.{HeadsHavePages};
ghost use Rattle.pp_rests_law.specs.Late.{FewRowsAreLate};

/// Few rows stand from the first on that came in this turn.
pub fn few_rows_are_used_behind_new_ones()
    ensures few { FewRowsAreLate }
{}

/// What is no head is refused with a status that there is a page of.
pub fn what_is_no_head_has_a_page()
    ensures pages { HeadsHavePages }
{}
