// The wait.
ghost use Rattle.pp_waits_law.specs.Waits.{ClientsStandFirst, WaitsLead};

/// In the wants clients stand first, and origins behind them.
pub fn clients_stand_first()
    ensures first { ClientsStandFirst }
{}

/// Where it is permitted the wait leads to the law's `rest_with`, and the turn stands there.
pub fn waits_lead_as_by_the_law()
    ensures leads { WaitsLead }
{}
