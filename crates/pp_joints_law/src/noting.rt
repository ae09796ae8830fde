// What left memory is noted.
ghost use Rattle.pp_joints_law.specs.Unnoted.{
  KeepingsForgetNone,
  LeavingsNoteAll,
  SettlingsForgetNone,
  WaitsForgetNone,
};

/// From where rows leave memory to the next wait none is left to be noted.
pub fn what_left_memory_is_noted()
    ensures leavings { LeavingsNoteAll }
    ensures keepings { KeepingsForgetNone }
    ensures settlings { SettlingsForgetNone }
    ensures waits { WaitsForgetNone }
{}
