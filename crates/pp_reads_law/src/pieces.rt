// What a read brings amid a body.
ghost use Rattle.pp_reads_law.specs.Pieces.{BodiesAreReadAsTheLaws, BodiesBeginAsTheLaws, PiecesAreGot, StepsAmidAsTheLaws};

/// Step by step it is one piece of the law, up to the end of the body or of the read.
pub fn bodies_are_read_as_the_laws()
    ensures begins { BodiesBeginAsTheLaws }
    ensures steps { StepsAmidAsTheLaws }
    ensures read { BodiesAreReadAsTheLaws }
    ensures got { PiecesAreGot }
{}
