// A life begins.
ghost use Rattle.pp_joints_law.specs.Opened.{CrashesMayCome, DoorsMayStayShut, FirstTurnsBegin, FoldersLead, FoldersMayBreakOff, ListenedOnesBegin, LivesBegin, LivesMayBreakOff, OpenedOnesAreCarried, OpenedOnesMayWait, OpenedRowsAreShort, OpeningsEndAsTheyAre, StringsAreTexts, ToldLivesBegin, TopsAreTheLogs, WordsLead, WordsMayBreakOff};

/// A life may wake to whatever a crash leaves of the law's disk.
pub fn lives_wake_behind_crashes()
    ensures woke { CrashesMayCome }
{}

/// What words and text say is in force; the folder is used and listed, each of its names is looked at, and the life listens; and no row of the
/// store that recovery makes is long.
pub fn openings_lead_to_listening()
    ensures texts { StringsAreTexts }
    ensures words { WordsLead }
    ensures rows { OpenedRowsAreShort }
    ensures folders { FoldersLead }
{}

/// From its first happening to its first wait the log goes on as by the law.
pub fn lives_begin_as_by_the_law()
    ensures begin { LivesBegin }
    ensures told { ToldLivesBegin }
{}

/// One that does not come to serve stays in its opening, where its line may be printed.
pub fn lives_may_break_off()
    ensures words { WordsMayBreakOff }
    ensures folders { FoldersMayBreakOff }
    ensures doors { DoorsMayStayShut }
    ensures lives { LivesMayBreakOff }
{}

/// The law knows of no greater number of a connection than the log, over all lives.
pub fn numbers_are_the_logs()
    ensures tops { TopsAreTheLogs }
{}

/// There all stands that a turn begins with, the life may wait, and the first turn begins.
pub fn first_turns_begin()
    ensures listened { ListenedOnesBegin }
    ensures still { OpeningsEndAsTheyAre }
    ensures carried { OpenedOnesAreCarried }
    ensures waits { OpenedOnesMayWait }
    ensures begin { FirstTurnsBegin }
{}
