// What is waited for, so that nobody waits on nothing, and what a wait changes. It is ours.
ghost use Rattle.std.specs.Prelude.{◌≡◌, [], drop, false, filter, length, map, nat_lt, slice_get, vec_capacity};
ghost use Rattle.pp_wants.specs.Awaited.{all_asked, all_got, has_room_on, with_asked, with_got};
ghost use Rattle.pp_desk.specs.Closings.{where_there};
ghost use Rattle.pp_desk.specs.Marks.{on_peer_at};
ghost use Rattle.pp_wants.specs.Rests.{all_waiting, is_waited_for, rested_at, rested_by, rested_peer};
ghost use Rattle.pp_state.specs.Ends.{parts, AreInOrder, AreSeated};
ghost use Rattle.pp_state.specs.Lines.{first_on};
ghost use Rattle.pp_state.specs.Unseen.{all_rested};
ghost use Rattle.pp_due.specs.Waits.{all_read, all_written, is_loud, with_written_by};
ghost use Rattle.pp_world.specs.Wire.{has_number};

use arrayvec::ArrayVec;
use pp_desk::{Desk, MAX_CLIENTS};
use pp_due::{is_far_ahead, note_clients, rest_client};
use pp_peers::{Peer, Peers};
use pp_state::State;
use pp_steps::room_for;
use pp_world::Wants;

/// Writes down what is waited for, and which clients are not silent: the next turn looks at those alone. `wants` has
/// the clients that were read at the last wait, and no origin. Of those that are read now, so many are clients: they
/// come first.
pub fn note_wants(desk: &mut Desk, wants: &mut Wants) -> usize
    ensures accept { wants.new.accept ≡ nat_lt (length desk.old.state.seats.items) MAX_CLIENTS }
    ensures clients { AreInOrder wants.old.read.items → result ≡ length (all_read desk.old.state wants.old.read.items) }
    ensures read { AreSeated desk.old.state → AreInOrder wants.old.read.items → wants.new.read.items ≡ all_got (filter (is_loud desk.old.state.seats.items) desk.old.state.awake.items) (parts desk.old.state) desk.old.peers (all_read desk.old.state wants.old.read.items) }
    ensures write { AreSeated desk.old.state → wants.new.write.items ≡ all_asked (parts desk.old.state) desk.old.peers (all_written desk.old.state []) }
    ensures awake { desk.new.state.awake.items ≡ filter (is_loud desk.old.state.seats.items) desk.old.state.awake.items }
    ensures room { vec_capacity desk.new.state.awake ≡ vec_capacity desk.old.state.awake }
    ensures seats { desk.new.state.seats.items ≡ desk.old.state.seats.items }
    ensures rest { record desk.new { state = record desk.new.state { seats = desk.old.state.seats; awake = desk.old.state.awake } } ≡ desk.old }
{
    wants.accept = desk.state.seats.len() < MAX_CLIENTS;
    wants.write.clear();
    note_clients(&mut desk.state, wants);
    let clients = wants.read.len();
    note_origins(&mut desk.state, wants, desk.peers.as_slice());
    clients
}

/// What a wait changes. Of those that are read, so many are clients.
pub fn rest(desk: &mut Desk, wants: &Wants, clients: usize)
    ensures seats { desk.new.state.seats.items ≡ all_waiting desk.old.state }
    ensures flow { desk.new.state.flow ≡ all_rested desk.old.state.awake.items (all_waiting desk.old.state) desk.old.state.flow }
    ensures peers { desk.new.peers ≡ map (rested_peer clients wants.now desk.old.state.now) desk.old.peers }
    ensures rest { record desk.new { state = record desk.new.state { seats = desk.old.state.seats; flow = desk.old.state.flow }; peers = desk.old.peers } ≡ record desk.old { state = record desk.old.state { is_ticked = false; is_evicting = false } } }
{
    rest_origins(&mut desk.peers, wants, clients, desk.state.now);
    rest_clients(&mut desk.state);
    desk.state.note_wanted();
    desk.state.is_ticked = false;
    desk.state.is_evicting = false;
}

fn rest_clients(state: &mut State)
    ensures is { state.new.seats.items ≡ all_waiting state.old }
    ensures rest { record state.new { seats = state.old.seats } ≡ state.old }
{
    for turn in 0..state.awake.len() {
        rest_in_turn(state, turn);
    }
}

fn rest_in_turn(state: &mut State, turn: usize)
    ensures is { state.new.seats.items ≡ where_there (rested_at state.old) state.old.seats.items (slice_get state.old.awake.items turn) }
    ensures rest { record state.new { seats = state.old.seats } ≡ state.old }
{
    if let Some(i) = state.awake_at(turn) {
        rest_client(state, i);
    }
}

fn rest_origins(peers: &mut Peers, wants: &Wants, clients: usize, now: u64)
    ensures { peers.new ≡ map (rested_peer clients wants.now now) peers.old }
{
    for place in 0..peers.len() {
        rest_at(peers, wants, clients, now, place);
    }
}

fn rest_at(peers: &mut Peers, wants: &Wants, clients: usize, now: u64, place: usize)
    ensures { peers.new ≡ on_peer_at place (rested_peer clients wants.now now) peers.old }
{
    if let Some(peer) = peers.at_mut(place) {
        let waited = is_waited_for(wants, clients, peer);
        rest_peer(peer, waited, now);
    }
}

/// It waits from then on where it did not before.
fn rest_peer(peer: &mut Peer, waited: bool, now: u64)
    ensures { peer.new ≡ rested_by waited now peer.old }
{
    if !(waited && peer.has_waited) {
        peer.mark = now;
    }
    peer.has_waited = waited;
}

fn is_waited_for(wants: &Wants, clients: usize, peer: &Peer) -> bool
    ensures { result ≡ is_waited_for clients wants.now peer.now }
{
    !peer.is_reached
        || is_read_behind(wants, clients, peer.number)
        || wants.write.as_slice().contains(&peer.number)
}

/// It is read, behind so many.
fn is_read_behind(wants: &Wants, clients: usize, k: u64) -> bool
    ensures { result ≡ has_number k (drop clients wants.now.read.items) }
{
    match wants.read.as_slice().get(clients..) {
        None => false,
        Some(read) => read.contains(&k),
    }
}

/// What is waited for of the connections, one behind the other.
fn note_origins(state: &mut State, wants: &mut Wants, peers: &[Peer])
    ensures read { AreSeated state.old → wants.new.read.items ≡ all_got state.old.awake.items (parts state.old) peers.now wants.old.read.items }
    ensures write { AreSeated state.old → wants.new.write.items ≡ all_asked (parts state.old) peers.now wants.old.write.items }
    ensures accept { wants.new.accept ≡ wants.old.accept }
    ensures seats { state.new.seats.items ≡ state.old.seats.items }
    ensures rest { record state.new { seats = state.old.seats } ≡ state.old }
{
    for peer in peers {
        note_origin(state, wants, peer);
    }
}

fn note_origin(state: &mut State, wants: &mut Wants, peer: &Peer)
    ensures read { AreSeated state.old → wants.new.read.items ≡ with_got state.old.awake.items (parts state.old) wants.old.read.items peer.now }
    ensures write { AreSeated state.old → wants.new.write.items ≡ with_asked (parts state.old) wants.old.write.items peer.now }
    ensures accept { wants.new.accept ≡ wants.old.accept }
    ensures seats { state.new.seats.items ≡ state.old.seats.items }
    ensures rest { record state.new { seats = state.old.seats } ≡ state.old }
{
    let is_asked = peer.is_reached && state.has_to_ask(peer.number);
    note_number(&mut wants.write, peer.number, is_asked);
    let is_read = peer.is_reached && has_room_on(state, peer.number);
    note_number(&mut wants.read, peer.number, is_read);
}

fn note_number(numbers: &mut ArrayVec<u64, 320>, k: u64, is_noted: bool)
    ensures { numbers.new.items ≡ with_written_by is_noted k numbers.old.items }
{
    if is_noted {
        let _ = numbers.try_push(k);
    }
}

/// Reading stops where the pipe has no room, or far ahead of all its readers.
fn has_room_on(state: &mut State, k: u64) -> bool
    ensures room { AreSeated state.old → result ≡ has_room_on state.old.awake.items (parts state.old) (first_on k (parts state.old)) }
    ensures seats { state.new.seats.items ≡ state.old.seats.items }
    ensures rest { record state.new { seats = state.old.seats } ≡ state.old }
{
    let Some(number) = state.flow.line(k, 0) else {
        return true;
    };
    let Some(e) = state.exchange(number) else {
        return true;
    };
    room_for(state, &e, 1) > 0 && !is_far_ahead(state, &e)
}
