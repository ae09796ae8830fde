// The row that is kept of the key of an exchange.
ghost use Rattle.pp_reads_law.specs.Rows.{RowsAreBroughtAsTheLaws, RowsComeInWithRoom};

/// It comes into memory beside the head of a response, and another leaves for it.
pub fn rows_are_brought_as_the_laws()
    ensures rows { RowsComeInWithRoom }
    ensures brought { RowsAreBroughtAsTheLaws }
{}
