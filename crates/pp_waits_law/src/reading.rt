// Who is read at a wait.
ghost use Rattle.pp_waits_law.specs.Reads.{ClientsAreRead, NoMoreIsRead, OriginsAreRead, ReadAreWritten, WaitsLeaveRead};

/// Each client is read that may send more, where there is room for that, and nobody else; and each origin as by the law.
pub fn clients_are_read_as_by_the_law()
    ensures written { ReadAreWritten }
    ensures clients { ClientsAreRead }
    ensures origins { OriginsAreRead }
    ensures no_more { NoMoreIsRead }
{}

/// Behind the wait whoever is not looked at was read.
pub fn waits_leave_those_who_were_read()
    ensures left { WaitsLeaveRead }
{}
