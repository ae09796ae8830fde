// Each moment of a read of an origin.
ghost use Rattle.pp_comes_law.specs.Bare.{HeadsLeaveThemBare};
ghost use Rattle.pp_comes_law.specs.Moments.{ReadsRest};
ghost use Rattle.pp_comes_law.specs.Pipes.{PipesHaveRoom};

/// What each piece of a read rests on is there, from a lawful log, beside what is still asked of each moment.
pub fn reads_rest_on_what_is_there()
    ensures { ReadsRest }
{}

/// Where nothing stood in the pipe of a client, nothing does behind the head of a response, whoever it is passed to.
pub fn heads_leave_pipes_bare()
    ensures { HeadsLeaveThemBare }
{}

/// At each moment of a read the pipe of whoever a response is passed to has room for its data.
pub fn pipes_have_room_in_reads()
    ensures { PipesHaveRoom }
{}
