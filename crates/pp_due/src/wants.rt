// What is waited for of the clients, and what a wait changes. It is ours.
ghost use Rattle.std.specs.Prelude.{◌≡◌, filter, map, vec_capacity};
ghost use Rattle.std.specs.List.{fold};
ghost use Rattle.pp_state.specs.Ends.{AreInOrder, changed_at, numbers_of};
ghost use Rattle.pp_state.specs.Readers.{furthest_read, is_brought_to, is_far_ahead, is_past, next_at, read_at};
ghost use Rattle.pp_due.specs.Waits.{all_read, all_written, awaited_by, is_loud, is_read, is_waiting, is_written, with_read, rested_seat, shared_with, waiting_on, waits_for_exchange, woken_by, woken_seat, with_written, with_written_by};
ghost use Rattle.pp_state.specs.Numbers.{with_read_by};

use crate::due::is_dry;
use arrayvec::ArrayVec;
use pp_cache::CHUNK_LEN;
use pp_decide::{is_sharing, shared_ask};
use pp_flow::Exchange;
use pp_objects::ObjectId;
use pp_seats::{Next, Seat, Shared};
use pp_state::{State, further, is_same, is_soon};
use pp_world::Wants;

/// So many numbers stand in the wants.
const MOST: usize = 320;

/// Ours: so many chunks past the furthest reader, reading stops.
const CHUNKS_AHEAD: u64 = 256;

/// Writes down what is waited for of the clients, and which of them are not silent.
///
/// Who is not awake is silent, and is read or not as at the last wait: so only those who are awake are put in or taken
/// out. Where all are, as behind a tick or where a client left, the list is written anew.
pub fn note_clients(state: &mut State, wants: &mut Wants)
    ensures awake { state.new.awake.items ≡ filter (is_loud state.old.seats.items) state.old.awake.items }
    ensures room { vec_capacity state.new.awake ≡ vec_capacity state.old.awake }
    ensures read { AreInOrder wants.old.read.items → wants.new.read.items ≡ all_read state.old wants.old.read.items }
    ensures write { wants.new.write.items ≡ all_written state.old wants.old.write.items }
    ensures accept { wants.new.accept ≡ wants.old.accept }
    ensures rest { record state.new { awake = state.old.awake } ≡ state.old }
{
    if state.awake.len() == state.seats.len() {
        wants.read.clear();
    }
    note_awake(state, wants);
    keep_loud(&state.seats, &mut state.awake);
}

/// Those that are looked at, one behind the other.
fn note_awake(state: &State, wants: &mut Wants)
    ensures read { AreInOrder wants.old.read.items → wants.new.read.items ≡ fold (with_read state.entry.now.seats.items) wants.old.read.items state.entry.now.awake.items }
    ensures write { wants.new.write.items ≡ all_written state.entry.now wants.old.write.items }
    ensures accept { wants.new.accept ≡ wants.old.accept }
{
    for i in state.awake.iter() {
        note_client(state, wants, *i);
    }
}

fn note_client(state: &State, wants: &mut Wants, i: usize)
    ensures read { AreInOrder wants.old.read.items → wants.new.read.items ≡ with_read state.entry.now.seats.items wants.old.read.items i }
    ensures order { AreInOrder wants.old.read.items → AreInOrder wants.new.read.items }
    ensures write { wants.new.write.items ≡ with_written state.entry.now wants.old.write.items i }
    ensures accept { wants.new.accept ≡ wants.old.accept }
{
    if let Some(seat) = state.seats.get(i) {
        note_read(&mut wants.read, seat.id(), is_read(seat));
        note_written(&mut wants.write, seat.id(), is_written(state, seat));
    }
}

/// Something is left to say to it; to one that is silent nothing is.
fn is_written(state: &State, seat: &Seat) -> bool
    ensures { result ≡ is_written state.entry.now seat.now }
{
    !seat.is_silent() && !is_dry(state, seat)
}

/// What a wait changes of the client at this place: it waits for the exchange that it shares.
#[tactic(auto, using(pp_state::proofs::PlacesLemmas::changed_here, pp_state::proofs::PlacesLemmas::same_numbers, crate::proofs::WaitsLemmas::none_changed))]
pub fn rest_client(state: &mut State, i: usize)
    ensures is { state.new.seats.items ≡ changed_at i (rested_seat state.old) state.old.seats.items }
    ensures numbers { numbers_of state.new.seats.items ≡ numbers_of state.old.seats.items }
    ensures rest { record state.new { seats = state.old.seats } ≡ state.old }
{
    if i < state.seats.len() {
        let awaited = awaited_by(state, &state.seats[i]);
        wait_on(&mut state.seats[i], awaited);
    }
}

/// The exchange that it waits for.
fn awaited_by(state: &State, seat: &Seat) -> Option<Shared>
    ensures { result ≡ awaited_by state.entry.now seat.now }
{
    match seat.waits_on {
        Some(shared) => Some(shared),
        None => shared_with(state, seat),
    }
}

/// The one that it shares, from now on.
fn shared_with(state: &State, seat: &Seat) -> Option<Shared>
    ensures { result ≡ shared_with state.entry.now seat.now }
{
    if !is_sharing(state, seat) {
        return None;
    }
    let exchange = shared_ask(state, seat)?;
    Some(Shared {
        exchange,
        since: state.now,
    })
}

/// Who waited for an exchange, and was not written to, is not idle, however long the clock stood still.
pub fn renew_marks(state: &mut State, now: u64)
    ensures is { state.new.seats.items ≡ map (woken_seat now state.old) state.old.seats.items }
    ensures rest { record state.new { seats = state.old.seats } ≡ state.old }
{
    for i in 0..state.seats.len() {
        renew_mark(state, i, now);
    }
}

#[tactic(auto, using(pp_state::proofs::PlacesLemmas::changed_here, crate::proofs::WaitsLemmas::none_changed))]
fn renew_mark(state: &mut State, i: usize, now: u64)
    ensures is { state.new.seats.items ≡ changed_at i (woken_seat now state.old) state.old.seats.items }
    ensures rest { record state.new { seats = state.old.seats } ≡ state.old }
{
    if i < state.seats.len() {
        let waits = is_waiting(state, &state.seats[i]);
        renew_mark_of(&mut state.seats[i], waits, now);
    }
}

/// It waits for an exchange, and nothing is there to be said to it.
fn is_waiting(state: &State, seat: &Seat) -> bool
    ensures { result ≡ is_waiting state.entry.now seat.now }
{
    waits_for_exchange(state, seat) && is_dry(state, seat)
}

/// It waits for the exchange that brings its next byte; where it follows nothing, for that of its request, or
/// for one that it shares.
fn waits_for_exchange(state: &State, seat: &Seat) -> bool
    ensures { result ≡ waits_for_exchange state.entry.now seat.now }
{
    match seat.next() {
        Some(next) => state.is_brought(&next),
        None => state.flow.asked_by(seat.id()).is_some() || is_sharing(state, seat),
    }
}

/// What comes of the exchange is far ahead of all its readers.
pub fn is_far_ahead(state: &State, e: &Exchange) -> bool
    ensures { result ≡ is_far_ahead e.now.bound state.entry.now.cache state.entry.now.awake.items state.entry.now.seats.items }
{
    match e.bound {
        None => false,
        Some((id, from, _, all)) => match furthest_read(state, id, from, all) {
            None => false,
            Some(at) => is_past(at, from) && state.cache.is_held(id, at),
        }
    }
}

/// Where the furthest of the readers stands to whom an exchange brings this instance from this offset on.
fn furthest_read(state: &State, id: ObjectId, from: u64, all: bool) -> Option<u64>
    ensures { result ≡ furthest_read id from all state.entry.now.cache state.entry.now.awake.items state.entry.now.seats.items }
{
    let mut furthest: Option<u64> = None;
    for i in state.awake.iter() {
        furthest = further(furthest, read_at(state, *i, id, from, all));
    }
    furthest
}

/// Where the client at this place stands, if it is one of those.
fn read_at(state: &State, i: usize, id: ObjectId, from: u64, all: bool) -> Option<u64>
    ensures { result ≡ read_at id from all state.entry.now.cache (next_at state.entry.now.seats.items i) }
{
    let next = state.next_at(i)?;
    if is_same(next.source, id) && is_brought_to(state, &next, from, all) {
        Some(next.at)
    } else {
        None
    }
}

/// It was brought what it says next, or waits for it: who reads on elsewhere, far ahead of what comes, is brought
/// nothing.
fn is_brought_to(state: &State, next: &Next, from: u64, all: bool) -> bool
    ensures { result ≡ is_brought_to from all state.entry.now.cache next.now }
{
    next.at <= from || (is_soon(all, from, next.at) && !state.cache.is_held(next.source, next.at))
}

/// It may send more, and there is room for what it sends.
fn is_read(seat: &Seat) -> bool
    ensures { result ≡ is_read seat.now }
{
    !seat.has_hung_up && seat.client.room() > 0
}

/// A client is read from now on, or not.
fn note_read(read: &mut ArrayVec<u64, MOST>, id: u64, is_read: bool)
    ensures is { AreInOrder read.old.items → read.new.items ≡ with_read_by is_read id read.old.items }
    ensures order { AreInOrder read.old.items → AreInOrder read.new.items }
{
    match read.as_slice().binary_search(&id) {
        Ok(place) => if !is_read {
            let _ = read.pop_at(place);
        }
        Err(place) => if is_read {
            let _ = read.try_insert(place, id);
        }
    }
}

/// It is written to from now on, where something is left to say to it.
fn note_written(written: &mut ArrayVec<u64, MOST>, id: u64, is_written: bool)
    ensures { written.new.items ≡ with_written_by is_written id written.old.items }
{
    if is_written {
        let _ = written.try_push(id);
    }
}

/// Whoever is silent is not looked at.
fn keep_loud(seats: &[Seat], awake: &mut Vec<usize>)
    ensures is { awake.new.items ≡ filter (is_loud seats.now) awake.old.items }
    ensures room { vec_capacity awake.new ≡ vec_capacity awake.old }
{
    awake.retain(|i| is_loud(seats, *i));
}

fn is_loud(seats: &[Seat], i: usize) -> bool
    ensures { result ≡ is_loud seats.now i }
{
    match seats.get(i) {
        None => false,
        Some(seat) => !seat.is_silent(),
    }
}

fn wait_on(seat: &mut Seat, awaited: Option<Shared>)
    ensures { seat.new ≡ waiting_on awaited seat.old }
{
    seat.waits_on = awaited;
}

fn renew_mark_of(seat: &mut Seat, waits: bool, now: u64)
    ensures { seat.new ≡ woken_by waits now seat.old }
{
    if waits {
        seat.client.set_mark(now);
    }
}

/// An exchange that brings this offset next is so far past the other.
fn is_past(at: u64, from: u64) -> bool
    ensures { result ≡ is_past at from }
{
    (at / CHUNK_LEN).saturating_add(CHUNKS_AHEAD) <= from / CHUNK_LEN
}
