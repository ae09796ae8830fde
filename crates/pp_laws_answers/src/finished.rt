// Of whom all is answered.
ghost use Rattle.pp_laws_answers.specs.Finished.{NobodyIsFinished};

/// Who sends no more, and has sent nothing that is left to answer, is closing.
pub fn nobody_is_finished()
    ensures finished { NobodyIsFinished }
{}
