// What is still to come.
ghost use Rattle.pp_laws_brought.specs.Brought.{BoundsAreInOrder, DataFit, DataStayWithin};

/// Of an exchange that is bound to an instance, no more comes than is still to come, which is 1 GiB at most, and ends with the version at the latest.
pub fn no_more_comes_than_is_to_come()
    ensures bounds { BoundsAreInOrder }
    ensures room { DataFit }
    ensures within { DataStayWithin }
{}
