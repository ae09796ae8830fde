// What comes on a connection is read.
ghost use Rattle.pp_states_law.specs.Gots.{GotsAreTheLaws, GotsAreUnread};
ghost use Rattle.pp_states_law.specs.Readings.{AnswersBeginAsTheLaws, BodiesGoOnAsTheLaws, HeadsGoOnAsTheLaws, ReadingsAreTheLaws};

/// Its pipe reads what the law has of it: amid a head, behind it, and amid a body.
pub fn readings_are_the_laws()
    ensures readings { ReadingsAreTheLaws }
    ensures heads { HeadsGoOnAsTheLaws }
    ensures answers { AnswersBeginAsTheLaws }
    ensures bodies { BodiesGoOnAsTheLaws }
{}

/// A read that is amid a head, as the law gets it at once.
pub fn gots_are_the_laws()
    ensures unread { GotsAreUnread }
    ensures gots { GotsAreTheLaws }
{}
