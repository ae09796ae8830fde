// From an event that is handled to where decisions come next.
ghost use Rattle.pp_turn_law.specs.Kept.{HandledOnesGoToDecide};

/// Where an event is handled, what leaves memory leaves it, and what is for the disk is done; the log goes on so, and decisions come next.
pub fn handled_ones_go_to_decide()
    ensures { HandledOnesGoToDecide }
{}
