// Whose each connection is.
ghost use Rattle.pp_laws_sides.specs.Linked.{LinksAreFew, LinksAreOnTheirSides, NumbersRise, OpenClientsAreThere, OpenOriginsAreThere, OwnOnesAreOpen};
ghost use Rattle.pp_laws_sides.specs.Sides.{SidesAreTheLaws};
ghost use Rattle.pp_laws_sides.specs.Tops.{NumbersComeOnce, TopsAreTheLaws};

/// In each state that a lawful log goes on as from, also amid a turn, the connections that are open in the log are those of the state: a
/// client's is open as a client's, a connection to an origin as an origin's, and no other is.
pub fn sides_are_the_laws()
    ensures sides { SidesAreTheLaws }
{}

/// So whatever is open on a side is there, and whatever is there is open on its side.
pub fn open_ones_are_there()
    ensures origins { OpenOriginsAreThere }
    ensures clients { OpenClientsAreThere }
    ensures own { OwnOnesAreOpen }
{}

/// Numbers of clients rise, and so do those of connections; none is above the greatest that was given, and none is both.
pub fn numbers_rise()
    ensures rise { NumbersRise }
{}

/// A list of open connections, each once, is no longer than clients and connections are many; and whoever stands in it stands on its side.
pub fn links_are_few()
    ensures few { LinksAreFew }
    ensures sides { LinksAreOnTheirSides }
{}

/// The greatest number that was given is that of the log, over all lives; so no number comes twice: whoever has one that was given has it
/// still, on the same side, or is gone for good.
pub fn numbers_come_once()
    ensures tops { TopsAreTheLaws }
    ensures once { NumbersComeOnce }
{}
