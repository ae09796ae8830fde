// Who is looked at (ours).
ghost use Rattle.pp_turns_law.specs.Looks.{AllAreAwake, AwakeAreLoud, LoudAreAwake, LoudStayAwake, RousedIsAwake};

/// From a wait on those that are not silent, one more where it is roused, and all behind a tick: the others are silent.
pub fn others_are_silent()
    ensures stay { LoudStayAwake }
    ensures roused { RousedIsAwake }
    ensures awake { LoudAreAwake }
    ensures all { AllAreAwake }
    ensures loud { AwakeAreLoud }
{}
