// All that is taken away and kept in a turn.
ghost use Rattle.pp_keeps_law.specs.All.{KeepingsLeadOn};

/// One behind the other, each is permitted, and they lead to where the law has nothing left to do for the disk.
pub fn keepings_lead_on()
    ensures { KeepingsLeadOn }
{}
