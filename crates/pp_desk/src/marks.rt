// From when on who is silent counts as idle (ours).
ghost use Rattle.std.specs.Prelude.{◌≡◌, map};
ghost use Rattle.std.specs.List.{find};
ghost use Rattle.pp_peers.specs.Peers.{is_number};
ghost use Rattle.pp_desk.specs.Closings.{KeepsDesk, sides};
ghost use Rattle.pp_desk.specs.Marks.{marked_on, marked_peer, marked_peers, marked_seat, marked_seats, on_peer_at, touched};
ghost use Rattle.pp_state.specs.Ends.{changed_at, numbers_of, AreSeated};

use crate::desk::Desk;
use pp_peers::Peers;
use pp_seats::Seat;

impl Desk {
    /// The connection is not idle.
    pub fn touch(&mut self, id: u64)
        ensures is { AreSeated self.old.state → sides self.new ≡ touched self.old.state.now id (sides self.old) }
        ensures numbers { numbers_of self.new.state.seats.items ≡ numbers_of self.old.state.seats.items }
        ensures rest { KeepsDesk self.old self.new }
    {
        let now = self.state.now;
        if let Some(i) = self.state.seat_of(id) {
            mark_at(&mut self.state.seats, i, now);
        }
        mark_on(&mut self.peers, id, now);
    }

    /// Where the clock leaps, each waits its patience anew from there.
    pub fn mark_where(&mut self, leaps: bool, now: u64)
        ensures seats { self.new.state.seats.items ≡ marked_seats leaps now self.old.state.seats.items }
        ensures peers { self.new.peers ≡ marked_peers leaps now self.old.peers }
        ensures rest { record self.new { state = record self.new.state { seats = self.old.state.seats }; peers = self.old.peers } ≡ self.old }
    {
        if leaps {
            mark_seats(&mut self.state.seats, now);
            mark_peers(&mut self.peers, now);
        }
    }
}

fn mark_seats(seats: &mut [Seat], now: u64)
    ensures { seats.new ≡ map (marked_seat now) seats.old }
{
    for seat in seats.iter_mut() {
        mark_seat(seat, now);
    }
}

#[tactic(auto, using(pp_state::proofs::PlacesLemmas::changed_here, pp_state::proofs::PlacesLemmas::same_numbers, crate::proofs::ClosingLemmas::none_changed))]
fn mark_at(seats: &mut [Seat], i: usize, now: u64)
    ensures is { seats.new ≡ changed_at i (marked_seat now) seats.old }
    ensures numbers { numbers_of seats.new ≡ numbers_of seats.old }
{
    if i < seats.len() {
        seats[i].client.set_mark(now);
    }
}

fn mark_seat(seat: &mut Seat, now: u64)
    ensures { seat.new ≡ marked_seat now seat.old }
{
    seat.client.set_mark(now);
}

fn mark_peers(peers: &mut Peers, now: u64)
    ensures { peers.new ≡ map (marked_peer now) peers.old }
{
    for place in 0..peers.len() {
        mark_peer(peers, place, now);
    }
}

fn mark_peer(peers: &mut Peers, place: usize, now: u64)
    ensures { peers.new ≡ on_peer_at place (marked_peer now) peers.old }
{
    if let Some(peer) = peers.at_mut(place) {
        peer.mark = now;
    }
}

/// The same of the connection with this number.
fn mark_on(peers: &mut Peers, k: u64, now: u64)
    ensures { peers.new ≡ marked_on now k (find (is_number k) peers.old) peers.old }
{
    if let Some(peer) = peers.get_mut(k) {
        peer.mark = now;
    }
}
