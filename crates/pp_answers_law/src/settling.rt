// What a response does to the row of its key.
ghost use Rattle.pp_answers_law.specs.Making.{MakesAreTheLaws};
ghost use Rattle.pp_answers_law.specs.Settling.{JoinsAreTheLaws, NotModifiedAreTheLaws, RenewalsAreTheLaws};

/// Its body belongs to the row, which it renews; and what a 304 says of the row.
pub fn rows_are_joined_as_the_laws()
    ensures joins { JoinsAreTheLaws }
    ensures renewals { RenewalsAreTheLaws }
    ensures not_modified { NotModifiedAreTheLaws }
{}

/// A new row is made, in the place of a former one.
pub fn rows_are_made_as_the_laws()
    ensures makes { MakesAreTheLaws }
{}
