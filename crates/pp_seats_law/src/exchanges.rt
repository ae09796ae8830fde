// What is read of an exchange is what the law says of it.
ghost use Rattle.pp_seats_law.specs.Exchanges.{ExchangesAreTheLaws};

/// Whether the head of its response came, what that is bound to, whether its text was asked, alone, and how often it may be lost.
pub fn exchanges_are_the_laws()
    ensures read { ExchangesAreTheLaws }
{}
