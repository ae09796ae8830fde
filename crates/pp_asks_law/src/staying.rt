// What stays through the steps of a round.
ghost use Rattle.pp_asks_law.specs.Stays.{ClosingsRefuseNone, PlacesRefuseNone, SilentStepsRefuseNone};

/// Where followers ask, connections are closed and exchanges get their places, memory is refused for no row.
pub fn memory_is_refused_for_no_row()
    ensures silent { SilentStepsRefuseNone }
    ensures closed { ClosingsRefuseNone }
    ensures placed { PlacesRefuseNone }
{}
