// What is asked next on a connection, and what is not asked twice.
ghost use Rattle.pp_laws_asks.specs.Orders.{AsksAreInOrder, OneFetchForMany};

/// What is asked on a connection is the front of what is left of an exchange of its line, and all before that one were asked whole.
pub fn asks_are_in_order()
    ensures ordered { AsksAreInOrder }
{}

/// Where fetches are shared, no second fetch of what is being fetched begins for a request that has not waited.
pub fn one_fetch_for_many()
    ensures one { OneFetchForMany }
{}
