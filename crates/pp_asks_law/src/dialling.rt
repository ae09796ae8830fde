// Dials that are refused.
ghost use Rattle.pp_asks_law.specs.Dials.{DialsMayGoWithout, FewNumbersAreGiven};

/// Wherever the places of a round come to, a dial may be refused, as long as there are numbers for what followers ask then.
pub fn dials_may_be_gone_without()
    ensures dials { DialsMayGoWithout }
{}

/// And there are, where the outside fails seldom enough in a life.
pub fn few_numbers_are_given()
    ensures few { FewNumbersAreGiven }
{}
