// What a read brings where a head is awaited.
ghost use Rattle.pp_reads_law.specs.Awaits.{EarlyStepsAsTheLaws, EmptyStepsAreNone, HeadStepsAsTheLaws};
ghost use Rattle.pp_reads_law.specs.Gots.{HeadsAreGotAsTheLaws};
ghost use Rattle.pp_reads_law.specs.Interims.{InterimsArePassed};

/// One step of the pipe is what the law makes of the text behind interim heads.
pub fn heads_are_awaited_as_the_laws()
    ensures steps { HeadStepsAsTheLaws }
    ensures early { EarlyStepsAsTheLaws }
    ensures none { EmptyStepsAreNone }
{}

/// And the law comes to that text, and goes on behind it.
pub fn interim_heads_are_passed()
    ensures passed { InterimsArePassed }
{}

/// So one step is what the law gets, up to the end of the head.
pub fn heads_are_got_as_the_laws()
    ensures heads { HeadsAreGotAsTheLaws }
{}
