// Nothing is found.
ghost use Rattle.pp_deciding_law.specs.Stands.{NoneIsTheLaws};

/// Nothing is due by the law, and all stands as before.
pub fn nothing_is_due_as_by_the_law()
    ensures none { NoneIsTheLaws }
{}
