// What is read of a head is what the law reads of it.
ghost use Rattle.pp_heads_law.specs.Rules.{ClearsAreTheLaws, DisprovesAreTheLaws, FullAnswersAreTheLaws, IgnoresAreTheLaws, InvalidatesAreTheLaws, JoinsAreTheLaws, NamesAreTheLaws, PrivatePartsAreTheLaws, TimesAreTheLaws, VersionsAreTheLaws, WidenedIsTheLaws, WrongHeadsAreTheLaws};

/// Of the head alone: whether it clears a row, is a part that is not to be shared, or shows another version.
pub fn heads_are_the_laws()
    ensures clears { ClearsAreTheLaws }
    ensures private { PrivatePartsAreTheLaws }
    ensures disproves { DisprovesAreTheLaws }
{}

/// Of the head by what was asked: whether it is wrong, its version and its times, and whether it outdates rows.
pub fn asks_are_the_laws()
    ensures wrong { WrongHeadsAreTheLaws }
    ensures versions { VersionsAreTheLaws }
    ensures times { TimesAreTheLaws }
    ensures widened { WidenedIsTheLaws }
    ensures invalidates { InvalidatesAreTheLaws }
{}

/// Of the head by what was asked and the version of the row: whether it joins that, or ignores a range.
pub fn rows_are_the_laws()
    ensures names { NamesAreTheLaws }
    ensures full { FullAnswersAreTheLaws }
    ensures joins { JoinsAreTheLaws }
    ensures ignores { IgnoresAreTheLaws }
{}
