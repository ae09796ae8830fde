// What nobody will see is not read on: its connection is closed, and the others of its line are asked
// elsewhere (RFC 2616, section 8.1.4).
ghost use Rattle.std.specs.Prelude.{◌≡◌, slice_get};
ghost use Rattle.pp_desk.specs.Closings.{KeepsDesk, peer_numbers, sides, where_there};
ghost use Rattle.pp_desk.specs.Origins.{without_unseen, without_unseen_on};
ghost use Rattle.pp_state.specs.Ends.{numbers_of, AreSeated};

use pp_desk::Desk;

/// Each connection whose first exchange nobody will see is closed, one behind the other.
pub fn drop_unseen(desk: &mut Desk)
    ensures is { AreSeated desk.old.state → sides desk.new ≡ without_unseen (sides desk.old) }
    ensures numbers { numbers_of desk.new.state.seats.items ≡ numbers_of desk.old.state.seats.items }
    ensures connections { peer_numbers desk.new.peers ≡ peer_numbers desk.old.peers }
    ensures rest { KeepsDesk desk.old desk.new }
{
    for place in 0..desk.peers.len() {
        drop_unseen_at(desk, place);
    }
}

fn drop_unseen_at(desk: &mut Desk, place: usize)
    ensures is { AreSeated desk.old.state → sides desk.new ≡ where_there without_unseen_on (sides desk.old) (slice_get (peer_numbers desk.old.peers) place) }
    ensures numbers { numbers_of desk.new.state.seats.items ≡ numbers_of desk.old.state.seats.items }
    ensures connections { peer_numbers desk.new.peers ≡ peer_numbers desk.old.peers }
    ensures rest { KeepsDesk desk.old desk.new }
{
    if let Some(k) = desk.number_at(place) {
        if let Some(number) = desk.state.unseen_on(k) {
            desk.drop_with(number, k);
        }
    }
}
