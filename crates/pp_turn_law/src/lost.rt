// From a chunk that could not be read back to where decisions come next.
ghost use Rattle.pp_turn_law.specs.Lost.{LostOnesGoToDecide};

/// Where the chunk of a client's next byte could not be read back, what is for the disk is done; the log goes on so, and decisions come next.
pub fn lost_ones_go_to_decide()
    ensures { LostOnesGoToDecide }
{}
