// The entries of a folder.
ghost use Rattle.pp_shelf_law.specs.Opening.{FoldersAreTheLaws, FreshOnesAreTheLaws, OpenedOnesAreTheLaws, RecoveredOnesAreClosed, RecoveriesAreTheLaws, UnreadNamesAreTheLaws};
ghost use Rattle.pp_shelf_law.specs.Repairs.{RepairsLead, SyncsLead};

/// A life begins with the entries of the folder; a file that cannot be read is none; and recovery makes the store of the others.
pub fn what_is_found_is_the_laws()
    ensures fresh { FreshOnesAreTheLaws }
    ensures unread { UnreadNamesAreTheLaws }
    ensures opened { OpenedOnesAreTheLaws }
{}

/// The folder is used and listed, and each name is looked at, where no gates are to be closed.
pub fn recovery_is_permitted()
    ensures folder { FoldersAreTheLaws }
    ensures names { RecoveriesAreTheLaws }
    ensures closed { RecoveredOnesAreClosed }
{}

/// Gates that the law has closed may be closed, and their file synced, or that fails.
pub fn repairs_are_permitted()
    ensures closed { RepairsLead }
    ensures synced { SyncsLead }
{}
