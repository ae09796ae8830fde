// Nobody falls asleep amid a turn.
ghost use Rattle.pp_waits_law.specs.Asleep.{AwakeByAndBy, NobodyWasRead, ReadStay};
ghost use Rattle.pp_waits_law.specs.Steps.{EventsKeepAwake, KeepingKeepsAwake, LeavingKeepsAwake, ReadStayToNextWait, SettlingKeepsAwake, TurnsKeepAwake};

/// Where nobody falls asleep, those who are not looked at were read.
pub fn those_who_were_read_stay()
    ensures opening { NobodyWasRead }
    ensures steps { AwakeByAndBy }
    ensures stay { ReadStay }
{}

/// In no step of a turn does anybody fall asleep.
pub fn nobody_falls_asleep()
    ensures events { EventsKeepAwake }
    ensures leaving { LeavingKeepsAwake }
    ensures keeping { KeepingKeepsAwake }
    ensures settling { SettlingKeepsAwake }
    ensures turns { TurnsKeepAwake }
    ensures next { ReadStayToNextWait }
{}
