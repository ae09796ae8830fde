// What is due of a seat is what is due of its client, and what a decision makes of it is what the law makes of its client.
ghost use Rattle.pp_seats_law.specs.Decided.{AnswersAreTheLaws, AsksAreTheLaws, PagesAreTheLaws};
ghost use Rattle.pp_seats_law.specs.Dues.{BroughtCountsAsTheLaws, CutIsTheLaws, DecisionIsTheLaws, DueAsReadIsTheLaws, DueIsTheLaws, FinishedIsTheLaws, FirstDueIsTheLaws, HeadsAreTheLaws, LostIsTheLaws, RowsDecideAsTheLaws, SharingIsTheLaws, WaitingIsTheLaws};

/// What its head alone decides; that the row of its key decides else; and whether what its exchange brought counts there.
pub fn requests_are_decided_as_the_laws()
    ensures heads { HeadsAreTheLaws }
    ensures rows { RowsDecideAsTheLaws }
    ensures counts { BroughtCountsAsTheLaws }
{}

/// By what the table, the exchanges and the row of its key tell of it: whether it waits for another's answer or for its own,
/// whether it lost its row, the decision, the cut, and which of them comes, also where what does not count is not asked for; whose
/// comes first of all; and whether nothing that it sent is left to answer.
pub fn dues_are_the_laws()
    ensures waits { WaitingIsTheLaws }
    ensures lost { LostIsTheLaws }
    ensures sharing { SharingIsTheLaws }
    ensures decision { DecisionIsTheLaws }
    ensures cut { CutIsTheLaws }
    ensures due { DueIsTheLaws }
    ensures read { DueAsReadIsTheLaws }
    ensures first { FirstDueIsTheLaws }
    ensures finished { FinishedIsTheLaws }
{}

/// A page is given, its origin is asked, or a reply is decided.
pub fn decisions_are_the_laws()
    ensures pages { PagesAreTheLaws }
    ensures asks { AsksAreTheLaws }
    ensures answers { AnswersAreTheLaws }
{}
