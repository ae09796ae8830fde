// Who is answered, and goes on.
ghost use Rattle.pp_comes_law.specs.Answered.{AnsweredOnesAreKeptOpen, AnsweredOnesGoOn};

/// Who is answered, and is not to be closed behind that, can go on to the next request.
pub fn answered_ones_go_on()
    ensures kept { AnsweredOnesAreKeptOpen }
    ensures goes { AnsweredOnesGoOn }
{}
