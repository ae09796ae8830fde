// The rows of other places that a response names.
ghost use Rattle.pp_answers_law.specs.Naming.{NamesAreTheLaws};

/// A text names the same key of a site.
pub fn names_are_the_laws()
    ensures names { NamesAreTheLaws }
{}
