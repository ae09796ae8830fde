// The end of an empty body.
ghost use Rattle.pp_reads_law.specs.Empties.{EmptyBodiesEndAsTheLaws, ExchangesEndAlike, HeadsLetAllGo, HeadsNoteTheBody};

/// The law ends it with the head, the program with the next step of its pipe: both are the same.
pub fn empty_bodies_end_as_the_laws()
    ensures noted { HeadsNoteTheBody }
    ensures go { HeadsLetAllGo }
    ensures alike { ExchangesEndAlike }
    ensures ends { EmptyBodiesEndAsTheLaws }
{}
