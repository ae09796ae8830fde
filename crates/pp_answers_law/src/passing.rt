// A response without a version.
ghost use Rattle.pp_answers_law.specs.Passing.{OthersAreTheLaws, PartsAreTheLaws, RelaysAreTheLaws};

/// It is passed to the request that waits for it, or dropped: to a Fetch or Validate, and to the ask of a follower.
pub fn responses_are_passed_as_the_laws()
    ensures relays { RelaysAreTheLaws }
    ensures others { OthersAreTheLaws }
    ensures parts { PartsAreTheLaws }
{}
