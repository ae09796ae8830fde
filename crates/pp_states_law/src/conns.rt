// One connection is changed.
ghost use Rattle.pp_states_law.specs.Conns.{ChangesAreTheLaws, ClosingsAreTheLaws, MarksAreTheLaws, ReachedAreTheLaws};

/// Whatever is made of it; something came on it, and it is there.
pub fn connections_are_the_laws()
    ensures changes { ChangesAreTheLaws }
    ensures marks { MarksAreTheLaws }
    ensures reached { ReachedAreTheLaws }
{}

/// Its cause to be closed has come.
pub fn closings_are_the_laws()
    ensures closings { ClosingsAreTheLaws }
{}
