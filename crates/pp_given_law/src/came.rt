// What came of a response can be counted.
ghost use Rattle.pp_given_law.specs.Came.{CameIsFew, ReadsCanBeCounted};

use pp_laws_sent::bodies_are_less_than_came;

/// With one more read, where the log is short.
pub fn what_came_can_be_counted()
    ensures few { CameIsFew }
{
    bodies_are_less_than_came();
}

/// With what a read brings, where it is owed.
pub fn reads_can_be_counted()
    ensures counts { ReadsCanBeCounted }
{
    what_came_can_be_counted();
}
