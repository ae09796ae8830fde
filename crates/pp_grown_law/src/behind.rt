// Behind all that is taken away and kept in a turn.
ghost use Rattle.pp_grown_law.specs.Kept.{KeptStaysAsKept};
ghost use Rattle.pp_grown_law.specs.Left.{NoneComesOfTheSame, NoneIsAmongAny, NoneIsLeft};
ghost use Rattle.pp_grown_law.specs.Less.{NoneComesOfLess};
ghost use Rattle.pp_grown_law.specs.Noted.{NothingIsNoted};

/// No name is outdated, and no instance is noted as grown.
pub fn nothing_is_noted()
    ensures { NothingIsNoted }
{}

/// Each entry of the shelf has the fields that are kept of them.
pub fn kept_stays_as_kept()
    ensures { KeptStaysAsKept }
{}

/// No run of an instance is full and not kept, and none becomes so while nothing comes into memory that is not kept.
pub fn none_is_left()
    ensures left { NoneIsLeft }
    ensures same { NoneComesOfTheSame }
    ensures less { NoneComesOfLess }
    ensures any { NoneIsAmongAny }
{}
