// What followers ask for.
ghost use Rattle.pp_asks_law.specs.Asks.{FollowersMayAsk};

/// Behind the last decision of a round followers may ask for what is missing.
pub fn followers_may_ask()
    ensures asks { FollowersMayAsk }
{}
