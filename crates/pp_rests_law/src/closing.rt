// Closings.
ghost use Rattle.pp_rests_law.specs.Closing.{ClosingsMayCome};

/// They may come in each state that a lawful log may go on as from, where memory was refused for no row.
pub fn closings_may_come()
    ensures may { ClosingsMayCome }
{}
