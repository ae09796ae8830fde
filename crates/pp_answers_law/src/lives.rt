// Lives that were given, and what exchanges of clients joined.
ghost use Rattle.pp_answers_law.specs.Joined.{HeadsJoinWhatIsThere};
ghost use Rattle.pp_answers_law.specs.Lives.{HeadsLetLivesGoOn};

/// Each that clients name was given, no two instances have one slot, and who is followed stays, behind each final head, whatever was asked.
pub fn lives_go_on_behind_heads()
    ensures { HeadsLetLivesGoOn }
{}

/// What an exchange of a client joined behind a final head it had joined before, or it is in memory before the head or behind it.
pub fn what_heads_join_is_there()
    ensures { HeadsJoinWhatIsThere }
{}
