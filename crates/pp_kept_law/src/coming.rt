// What is kept and may come into memory.
ghost use Rattle.pp_kept_law.specs.Kept.{KeptAloneMayComeIn, KeptOnesAreNoted, KeptOnesMayComeIn};

/// Of each key it is what the law has of it, also where no row of it is in memory.
pub fn what_is_kept_may_come_in()
    ensures all { KeptOnesMayComeIn }
    ensures alone { KeptAloneMayComeIn }
{}

/// Which entries stand no more is noted, where what may come in is the law's.
pub fn what_stands_no_more_is_noted()
    ensures noted { KeptOnesAreNoted }
{}
