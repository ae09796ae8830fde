// Whom everybody waits for.
ghost use Rattle.pp_laws_waits.specs.Waits.{EachExchangeIsPlaced, NoRingOfWaits, NobodyWaitsOnNothing};

/// At each wait of a lawful log each client that is there is written to; or has no request, and is
/// read; or waits for an exchange that is there: that of its request, one that brings its next byte,
/// or one by which another asked for the same.
pub fn nobody_waits_on_nothing()
    ensures served { NobodyWaitsOnNothing }
{}

/// Each exchange that is there then stands in the line of a connection that is there, or has none to
/// go to.
pub fn exchanges_are_placed()
    ensures placed { EachExchangeIsPlaced }
{}

/// Each connection that is there then is dialled and not reached, is read, is written to, or is held
/// back by a client that is written to.
pub fn no_waits_form_a_ring()
    ensures goes_on { NoRingOfWaits }
{}
