// From the first decision of a turn on.
ghost use Rattle.pp_rounds_law.specs.Settles.{SettlesLead, StopsLead};

/// Decisions, and then rounds, lead to where the turn may wait.
pub fn turns_settle_as_by_the_law()
    ensures settles { SettlesLead }
{}

/// At Stop decisions, and then closings, lead to where the log may end.
pub fn turns_stop_as_by_the_law()
    ensures stops { StopsLead }
{}
