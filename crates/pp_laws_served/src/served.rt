// Who is served where a turn may end, and by which wants.
ghost use Rattle.pp_laws_served.specs.Filling.{EndsAreReady, FollowersAsk, PlacesKeepReady, RefusalsKeepReady, ShutsKeepReady};
ghost use Rattle.pp_laws_served.specs.Served.{AsGoodOnesServe, DecidedAreProvidedFor, TurnsEnd, WhoMayAskIsServed};

/// Where a turn may end, who has no request may send one, and is read.
pub fn who_may_ask_is_served()
    ensures asks { WhoMayAskIsServed }
{}

/// Where a turn may end, each whose request was decided has something to say, follows what is there or
/// comes, or has its exchange.
pub fn decided_ones_are_provided_for()
    ensures provided { DecidedAreProvidedFor }
{}

/// Wants by which those are read whom the law reads, and nobody is but who may send, serve everybody
/// whom its own serve.
pub fn as_good_ones_serve()
    ensures serve { AsGoodOnesServe }
{}

/// A turn that may end can, with each of these wants, where what is left to be shown holds.
pub fn turns_end()
    ensures ends { TurnsEnd }
{}

/// Behind the phase in which followers ask, the next byte of each that goes on trying, of a row that
/// stands, is there or comes.
pub fn followers_ask()
    ensures ask { FollowersAsk }
{}

/// Places, a dial also where it is refused, a connection that is dropped and a client that is shut keep it
/// so; and where a turn ends it is so, if it is in the phases behind that one.
pub fn ends_are_ready()
    ensures places { PlacesKeepReady }
    ensures shuts { ShutsKeepReady }
    ensures refusals { RefusalsKeepReady }
    ensures ends { EndsAreReady }
{}
