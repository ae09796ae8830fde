// One response for a reply, and all of its data that came.
ghost use Rattle.pp_laws_passed.specs.Passed.{PassedIsAllThatCame, PassedIsOneResponse, PiecesJoin};

/// While a client is in the midst of a reply that is passed, what comes to the exchange of its request is
/// the response whose head it was told.
pub fn passed_is_one_response()
    ensures one { PassedIsOneResponse }
{}

/// And as long as that comes, the data of all that came of it stand behind that head, in order and without a gap: they were
/// said, or are the next to be said, and nothing else was. What is put into the pipe with each piece of its body is what its
/// data grew by.
pub fn passed_is_all_that_came()
    ensures all { PassedIsAllThatCame }
    ensures pieces { PiecesJoin }
{}
