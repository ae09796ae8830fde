// The asks of a line, joined; and where they go.
ghost use Rattle.pp_laws_lines.specs.Hosts.{ConnectionsWereDialled, LinesGoToTheirHosts, NumbersAreDialledOnce};
ghost use Rattle.pp_laws_lines.specs.Lines.{AsksAreOneStream};

/// All that was asked on a connection is whole asks of exchanges of its line, one behind the other, and the front of one more.
pub fn asks_are_one_stream()
    ensures one { AsksAreOneStream }
{}

/// Each exchange in the line of a connection is for the host and port of that connection, and it was dialled to them, once.
pub fn lines_go_to_their_hosts()
    ensures hosts { LinesGoToTheirHosts }
    ensures dialled { ConnectionsWereDialled }
    ensures once { NumbersAreDialledOnce }
{}
