// The ways out of a wait, and out of a life.
ghost use Rattle.pp_turn_law.specs.Exits.{NoTurnNeedBeMade, TurnsHaveEvents, TurnsMayBeTheLast};

/// Each turn has its event, as nobody is turned away; and the log may end where a turn ended, or before the first.
pub fn turns_have_events()
    ensures events { TurnsHaveEvents }
    ensures last { TurnsMayBeTheLast }
    ensures none { NoTurnNeedBeMade }
{}
