// How many exchanges are under way, and what each is for.
ghost use Rattle.pp_laws_bounds.specs.Bounds.{Always};
ghost use Rattle.pp_laws_asks.specs.Asks.{HasFewExchanges, HasFewWaiting, HasOneEach};

/// Each request has one exchange at most.
pub fn one_exchange_each()
    ensures one { Always HasOneEach }
{}

/// At most 256 exchanges are waited for by a request, or have no place.
pub fn few_exchanges_wait()
    ensures few { Always HasFewWaiting }
{}

/// Until Stop at most 768 exchanges are under way in all.
pub fn exchanges_are_few()
    ensures few { Always HasFewExchanges }
{}
