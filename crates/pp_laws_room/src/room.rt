// Below the critical mark.
ghost use Rattle.pp_laws_room.specs.Room.{TurnsLeaveRoom};

/// In each state that a lawful log may go on as from no more chunks are used than the critical mark says; where a turn waits 32 fewer.
pub fn turns_leave_room()
    ensures room { TurnsLeaveRoom }
{}
