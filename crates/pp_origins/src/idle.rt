// Step 1: who is silent too long is not waited for (ours).
ghost use Rattle.std.specs.Prelude.{◌≡◌, slice_get};
ghost use Rattle.std.specs.List.{find};
ghost use Rattle.pp_peers.specs.Peers.{is_number};
ghost use Rattle.pp_desk.specs.Closings.{KeepsDesk, peer_numbers, sides, where_there};
ghost use Rattle.pp_desk.specs.Origins.{given_up, is_idle_in, patience, patience_ended, without_idle, without_idle_on};
ghost use Rattle.pp_state.specs.Ends.{numbers_of, parts, AreSeated, KeepsRest};

use pp_desk::Desk;
use pp_flow::Exchange;
use pp_state::State;

/// Ours: an origin that did nothing for so many seconds while it was waited for is given up: one that owes an
/// answer, and any other.
const ANSWER_SECONDS: u64 = 300;

const IDLE_SECONDS: u64 = 60;

/// Those that are idle are given up, one after the other.
pub fn close_idle(desk: &mut Desk)
    ensures is { AreSeated desk.old.state → sides desk.new ≡ without_idle desk.old.state.now (sides desk.old) }
    ensures numbers { numbers_of desk.new.state.seats.items ≡ numbers_of desk.old.state.seats.items }
    ensures connections { peer_numbers desk.new.peers ≡ peer_numbers desk.old.peers }
    ensures rest { KeepsDesk desk.old desk.new }
{
    for place in 0..desk.peers.len() {
        close_idle_at(desk, place);
    }
}

fn close_idle_at(desk: &mut Desk, place: usize)
    ensures is { AreSeated desk.old.state → sides desk.new ≡ where_there (without_idle_on desk.old.state.now) (sides desk.old) (slice_get (peer_numbers desk.old.peers) place) }
    ensures numbers { numbers_of desk.new.state.seats.items ≡ numbers_of desk.old.state.seats.items }
    ensures connections { peer_numbers desk.new.peers ≡ peer_numbers desk.old.peers }
    ensures rest { KeepsDesk desk.old desk.new }
{
    if let Some(k) = desk.number_at(place) {
        if is_idle(desk, k) {
            give_up(desk, k);
        }
    }
}

/// It did nothing while it was waited for, and is not given up yet.
fn is_idle(desk: &Desk, k: u64) -> bool
    ensures { result ≡ is_idle_in desk.entry.now.state.now desk.entry.now.state.flow (find (is_number k) desk.entry.now.peers) }
{
    match desk.peers.get(k) {
        None => false,
        Some(peer) => {
            let patience = patience_for(&desk.state.owed_answer(peer.number));
            let is_over = patience <= desk.state.now.saturating_sub(peer.mark);
            peer.has_waited && is_over && !peer.is_closing
        }
    }
}

/// It is closed, and what it did not answer is not asked again.
fn give_up(desk: &mut Desk, k: u64)
    ensures is { AreSeated desk.old.state → sides desk.new ≡ given_up k (sides desk.old) }
    ensures numbers { numbers_of desk.new.state.seats.items ≡ numbers_of desk.old.state.seats.items }
    ensures connections { peer_numbers desk.new.peers ≡ peer_numbers desk.old.peers }
    ensures rest { KeepsDesk desk.old desk.new }
{
    end_patience(&mut desk.state, k);
    desk.close_origin(k, true);
}

fn end_patience(state: &mut State, k: u64)
    ensures is { AreSeated state.old → parts state.new ≡ patience_ended k (parts state.old) }
    ensures numbers { numbers_of state.new.seats.items ≡ numbers_of state.old.seats.items }
    ensures rest { KeepsRest state.old state.new }
{
    if let Some(e) = state.owed_answer(k) {
        state.fail(&e);
    }
}

fn patience_for(owed: &Option<Exchange>) -> u64
    ensures { result ≡ patience owed.now }
{
    match owed {
        None => IDLE_SECONDS,
        Some(_) => ANSWER_SECONDS,
    }
}
