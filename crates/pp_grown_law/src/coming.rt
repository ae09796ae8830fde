// Rows that come and go.
ghost use Rattle.pp_grown_law.specs.Rows.{RetiringsBringNothing, RowsBringNothing};

/// They bring nothing to keep: a new one has nothing in memory.
pub fn rows_bring_nothing()
    ensures retired { RetiringsBringNothing }
    ensures settled { RowsBringNothing }
{}
