// Step 1: what one read of an origin brings, one step of its pipe behind the other (RFC 2616, sections 4.4, 6, 8.1 and 10.1).
ghost use Rattle.std.specs.Prelude.{◌≡◌, ◌+◌, ◌-◌, ◌≤◌, [], ◌++◌, length, is_some, option_map, slice_range, take, vec_capacity, IfSome};
ghost use Rattle.std.specs.List.{find};
ghost use Rattle.pp_cache.specs.Bounds.{IsBounded};
ghost use Rattle.pp_peers.specs.Peers.{is_number};
ghost use Rattle.pp_origins.specs.Gots.{Answers, DataCame, DataCameThen, HasGot, HeadCame, IsFedOn, IsStepOn, IsTaken, both, going_on, head_on, remaining, staying};
ghost use Rattle.pp_origins.specs.Responses.{bad_response, response_whole};
ghost use Rattle.pp_state.specs.Ends.{numbers_of, AreSeated};

use crate::responses::{bad_response, end_response};
use pp_answers::take_head;
use pp_desk::{Desk, READ_LEN};
use pp_due::bring_row_for;
use pp_head::Scratch;
use pp_peers::Peers;
use pp_pipe::{Step, stays_open};
use pp_shelf::Shelf;
use pp_state::State;
use pp_steps::deliver;

/// More steps than one read can tell.
const STEPS: usize = 2 * READ_LEN + 64;

/// What one read brought, one step behind the other, up to a cause to close the connection. Where it would have told more steps than
/// it can, this life goes astray.
pub(crate) fn bytes_came(desk: &mut Desk, shelf: &Shelf, k: u64, n: usize)
    requires { n ≤ length desk.old.buffer.items }
    ensures is { AreSeated desk.old.state → n ≤ vec_capacity desk.old.«data» → HasGot shelf.now k (take n desk.old.buffer.items) (both desk.old) (both desk.new) }
    ensures numbers { numbers_of desk.new.state.seats.items ≡ numbers_of desk.old.state.seats.items }
    ensures room { vec_capacity desk.old.«data» ≤ vec_capacity desk.new.«data» }
    ensures rest { record desk.new { state = desk.old.state; peers = desk.old.peers; «data» = desk.old.«data» } ≡ desk.old }
{
    desk.data.clear();
    let mut at: usize = 0;
    for _step in 0..STEPS {
        let step = step_came(desk, shelf, k, at, n);
        desk.state.cache.bounds();
        match step {
            None => return,
            Some(next) => at = next,
        }
    }
    desk.state.is_astray = true;
}

/// One step of what was read, from one place up to another. Where the next one begins, and None where it is the last. What it
/// does is told with the cache that it leaves, which is bounded, as each is.
fn step_came(desk: &mut Desk, shelf: &Shelf, k: u64, at: usize, n: usize) -> Option<usize>
    requires within { at ≤ n }
    requires there { n ≤ length desk.old.buffer.items }
    ensures is { AreSeated desk.old.state → IsBounded desk.new.state.cache → length desk.old.«data».items + (n - at) ≤ vec_capacity desk.old.«data» → IsStepOn (going_on (find (is_number k) desk.old.peers)) shelf.now k (remaining (slice_range desk.old.buffer.items at n) desk.old.«data».items) (both desk.old) (both desk.new) (option_map (λ next. remaining (slice_range desk.old.buffer.items next n) desk.new.«data».items) result) }
    ensures fits { length desk.old.«data».items + (n - at) ≤ vec_capacity desk.old.«data» → IfSome result (λ next. length desk.new.«data».items + (n - next) ≤ vec_capacity desk.new.«data») }
    ensures within { IfSome result (λ next. next ≤ n) }
    ensures numbers { numbers_of desk.new.state.seats.items ≡ numbers_of desk.old.state.seats.items }
    ensures room { vec_capacity desk.old.«data» ≤ vec_capacity desk.new.«data» }
    ensures rest { record desk.new { state = desk.old.state; peers = desk.old.peers; «data» = desk.old.«data» } ≡ desk.old }
{
    let bytes = &desk.buffer[at..n];
    let (used, step) = feed(&mut desk.peers, k, bytes)?;
    match step {
        Step::Head => {
            head_came(desk, shelf, k);
            Some(at + used)
        }
        Step::Body(from, to) => {
            join_data(&mut desk.data, bytes, from, to);
            Some(at + used)
        }
        Step::End => {
            response_came(desk, k);
            Some(at + used)
        }
        Step::Bad => {
            refused_came(desk, k);
            None
        }
        Step::Idle => {
            data_came(desk, k);
            None
        }
    }
}

/// Its pipe is fed these bytes, and tells one step of them. None where it is not there, or its cause to be closed has come.
fn feed(peers: &mut Peers, k: u64, bytes: &[u8]) -> Option<(usize, Step)>
    ensures { IsFedOn (going_on (find (is_number k) peers.old)) k bytes.now result peers.old peers.new }
{
    if !is_going_on(peers, k) {
        return None;
    }
    let pipe = peers.pipe(k)?;
    Some(pipe.feed(bytes))
}

/// It is there, and its cause to be closed has not come.
fn is_going_on(peers: &Peers, k: u64) -> bool
    ensures { result ≡ is_some (going_on (find (is_number k) peers.now)) }
{
    match peers.get(k) {
        None => false,
        Some(peer) => !peer.is_closing,
    }
}

/// The bytes of this span are data.
fn join_data(joined: &mut Vec<u8>, bytes: &[u8], from: usize, to: usize)
    requires order { from ≤ to }
    requires there { to ≤ length bytes.now }
    ensures is { length joined.old.items + (to - from) ≤ vec_capacity joined.old → joined.new.items ≡ joined.old.items ++ slice_range bytes.now from to }
    ensures room { vec_capacity joined.old ≤ vec_capacity joined.new }
{
    let _ = joined.extend_from_slice(&bytes[from..to]);
}

/// The data of one read go where they belong at once.
fn data_came(desk: &mut Desk, k: u64)
    ensures is { AreSeated desk.old.state → DataCame k desk.old.«data».items desk.old.state desk.new.state }
    ensures none { desk.new.«data».items ≡ [] }
    ensures numbers { numbers_of desk.new.state.seats.items ≡ numbers_of desk.old.state.seats.items }
    ensures room { vec_capacity desk.new.«data» ≡ vec_capacity desk.old.«data» }
    ensures rest { record desk.new { state = desk.old.state; «data» = desk.old.«data» } ≡ desk.old }
{
    deliver_on(&mut desk.state, k, desk.data.as_slice());
    desk.data.clear();
}

/// The first exchange of the line gets these data.
fn deliver_on(state: &mut State, k: u64, bytes: &[u8])
    ensures is { AreSeated state.old → DataCame k bytes.now state.old state.new }
    ensures numbers { numbers_of state.new.seats.items ≡ numbers_of state.old.seats.items }
{
    if bytes.is_empty() {
        return;
    }
    if let Some(number) = state.flow.line(k, 0) {
        deliver(state, number, bytes);
    }
}

/// A final head came: it belongs to the first exchange of the line. It is read beside what is kept of its key.
fn head_came(desk: &mut Desk, shelf: &Shelf, k: u64)
    ensures is { AreSeated desk.old.state → HeadCame shelf.now k (both desk.old) (both desk.new) }
    ensures numbers { numbers_of desk.new.state.seats.items ≡ numbers_of desk.old.state.seats.items }
    ensures rest { record desk.new { state = desk.old.state; peers = desk.old.peers } ≡ desk.old }
{
    let Some(number) = desk.state.flow.line(k, 0) else {
        return bad_response(desk, k);
    };
    bring_row_for(&mut desk.state, shelf, number);
    desk.state.cache.bounds();
    answer(desk, k, number);
}

/// The head that the pipe read answers the exchange, or is no response.
fn answer(desk: &mut Desk, k: u64, number: u64)
    ensures is { AreSeated desk.old.state → Answers k number (both desk.old) (both desk.new) }
    ensures numbers { numbers_of desk.new.state.seats.items ≡ numbers_of desk.old.state.seats.items }
    ensures rest { record desk.new { state = desk.old.state; peers = desk.old.peers } ≡ desk.old }
{
    match take_answer(&mut desk.state, &desk.peers, k, number) {
        None => bad_response(desk, k),
        Some(stays) => note_stays(&mut desk.peers, k, stays),
    }
}

/// The head that the pipe read is taken. Whether the connection stays open behind it, and None where it answers no ask of its kind.
#[tactic(auto, using(crate::proofs::HeadLimits::read_keeps_limits, crate::proofs::GotLemmas::head_taken))]
fn take_answer(state: &mut State, peers: &Peers, k: u64, number: u64) -> Option<bool>
    ensures is { AreSeated state.old → IsTaken (head_on k peers.now) number result state.old state.new }
    ensures numbers { numbers_of state.new.seats.items ≡ numbers_of state.old.seats.items }
{
    let mut scratch = Scratch::new();
    let head = peers.get(k)?.pipe.head(&mut scratch)?;
    if take_head(state, number, &head) {
        Some(stays_open(&head))
    } else {
        None
    }
}

/// Whether the connection stays open behind the response that comes.
fn note_stays(peers: &mut Peers, k: u64, stays: bool)
    ensures { peers.new ≡ staying k stays (find (is_number k) peers.old) peers.old }
{
    if let Some(peer) = peers.get_mut(k) {
        peer.stays = stays;
    }
}

/// The data of a response that is whole go where they belong, and it is over.
fn response_came(desk: &mut Desk, k: u64)
    ensures is { AreSeated desk.old.state → DataCameThen (response_whole k) k desk.old.«data».items (both desk.old) (both desk.new) }
    ensures none { desk.new.«data».items ≡ [] }
    ensures numbers { numbers_of desk.new.state.seats.items ≡ numbers_of desk.old.state.seats.items }
    ensures room { vec_capacity desk.new.«data» ≡ vec_capacity desk.old.«data» }
    ensures rest { record desk.new { state = desk.old.state; peers = desk.old.peers; «data» = desk.old.«data» } ≡ desk.old }
{
    data_came(desk, k);
    end_response(desk, k);
}

/// The data before what is no response go where they belong.
fn refused_came(desk: &mut Desk, k: u64)
    ensures is { AreSeated desk.old.state → DataCameThen (bad_response k) k desk.old.«data».items (both desk.old) (both desk.new) }
    ensures numbers { numbers_of desk.new.state.seats.items ≡ numbers_of desk.old.state.seats.items }
    ensures room { vec_capacity desk.new.«data» ≡ vec_capacity desk.old.«data» }
    ensures rest { record desk.new { state = desk.old.state; peers = desk.old.peers; «data» = desk.old.«data» } ≡ desk.old }
{
    data_came(desk, k);
    bad_response(desk, k);
}
