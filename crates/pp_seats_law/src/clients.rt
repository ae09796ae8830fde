// All seats show all clients of the law, one each, in their order.
ghost use Rattle.pp_seats_law.specs.Clients.{ChangesAreTheLaws, PlacesAreTheLaws};

/// One seat is changed as its client, or is found by the number of that.
pub fn clients_are_the_laws()
    ensures changes { ChangesAreTheLaws }
    ensures places { PlacesAreTheLaws }
{}
