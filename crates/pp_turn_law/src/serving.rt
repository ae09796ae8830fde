// From the first decision of a turn to where it may wait again.
ghost use Rattle.pp_turn_law.specs.Served.{DecidingOnesServe, HandledOnesServe};

/// Where decisions come next the turn decides, goes round and begins replies; the log goes on so, and the turn may wait again.
pub fn deciding_ones_serve()
    ensures deciding { DecidingOnesServe }
    ensures handled { HandledOnesServe }
{}
