// To the wait.
ghost use Rattle.pp_joints_law.specs.Serving.{ServedOnesMayWait, SettlesKeepWhatIsSet};

/// Where decisions and rounds end, the turn may wait, by wants that the law permits.
pub fn turns_may_wait_behind_rounds()
    ensures waits { ServedOnesMayWait }
{}

/// From the first decision to the end nothing that is set changes.
pub fn what_is_set_stays_set()
    ensures set { SettlesKeepWhatIsSet }
{}
