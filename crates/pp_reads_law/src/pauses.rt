// No byte is left of a read amid a body.
ghost use Rattle.pp_reads_law.specs.Pauses.{PausesChangeNothing};

/// The step of the pipe tells nothing, and all stands as before.
pub fn pauses_change_nothing()
    ensures pauses { PausesChangeNothing }
{}
