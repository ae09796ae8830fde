// What is asked on a connection.
ghost use Rattle.pp_peers_law.specs.Asked.{AsksAreTheLaws, LinesAreTheLaws};

/// What is left of the texts of a line stands in its pipe, that of its first exchange first.
pub fn lines_are_the_laws()
    ensures lines { LinesAreTheLaws }
{}

/// The pipe, once bytes of the text that is asked next were written, shows what the law makes of the line.
pub fn asks_are_the_laws()
    ensures asks { AsksAreTheLaws }
{}
