// Step 1: what an origin sent: responses, in the order of its line (RFC 2616, sections 4.4, 6, 8.1 and
// 10.1).
ghost use Rattle.std.specs.Prelude.{◌≡◌, ◌≤◌, ◌&&◌, is_some, length, nat_lt, take, vec_capacity, IfOk, IfSome};
ghost use Rattle.std.specs.List.{find};
ghost use Rattle.pp_links.specs.Links.{IsLinked, has_link};
ghost use Rattle.pp_links.specs.Quiet.{GrowsQuietly};
ghost use Rattle.pp_peers.specs.Peers.{is_number};
ghost use Rattle.pp_desk.specs.Calls.{read_log};
ghost use Rattle.pp_desk.specs.Closings.{KeepsDesk, sides};
ghost use Rattle.pp_origins.specs.Gots.{IsReceived, Receives, both};
ghost use Rattle.pp_origins.specs.Responses.{bad_answer, bad_response, brought_by, charged_by, finished, gone_on, goes_on_by, has_brought_in, read_room, response_whole};
ghost use Rattle.pp_state.specs.Ends.{numbers_of, parts, AreSeated, KeepsRest};
ghost use Rattle.pp_decide.specs.Patience.{may_go_on};
ghost use Rattle.pp_world.specs.Log.{AppendsAll};
ghost use Rattle.pp_world.specs.Wire.{IsWithin};

use crate::ended::gone;
use crate::got::bytes_came;
use pp_desk::{Desk, READ_LEN};
use pp_flow::Exchange;
use pp_links::Links;
use pp_peers::Peers;
use pp_shelf::Shelf;
use pp_state::State;
use pp_steps::room_for;
use pp_world::{Got, Wire, WireFault};

/// Reads from an origin; and replies that are over end.
#[tactic(auto, using(pp_links::proofs::QuietLemmas::quiet_then))]
pub fn receive<W: Wire>(desk: &mut Desk, links: &Links, shelf: &Shelf, world: &mut W, k: u64)
    requires { IsLinked (W.log world.old) (W.top world.old) links.now }
    ensures linked { IsLinked (W.log world.new) (W.top world.new) links.now }
    ensures quiet { GrowsQuietly (W.log world.old) (W.log world.new) }
    ensures is { AreSeated desk.old.state → length desk.old.buffer.items ≤ vec_capacity desk.old.«data» → Receives (length desk.old.buffer.items) shelf.now k links.now (both desk.old) (both desk.new) (W.log world.old) (W.log world.new) }
    ensures numbers { numbers_of desk.new.state.seats.items ≡ numbers_of desk.old.state.seats.items }
    ensures long { length desk.new.buffer.items ≡ length desk.old.buffer.items }
    ensures room { vec_capacity desk.old.«data» ≤ vec_capacity desk.new.«data» }
    ensures rest { record desk.new { state = desk.old.state; peers = desk.old.peers; buffer = desk.old.buffer; «data» = desk.old.«data» } ≡ desk.old }
    ensures top { W.top world.new ≡ W.top world.old }
    ensures faults { W.faults world.old ≤ W.faults world.new }
{
    let room = read_room(desk, k).min(desk.buffer.len());
    let found = read_front(links, world, k, &mut desk.buffer, room);
    take_received(desk, links, shelf, world, k, &found);
}

/// Reads into the front of the buffer, of which so much is lent.
fn read_front<W: Wire>(
    links: &Links,
    world: &mut W,
    k: u64,
    buffer: &mut [u8],
    room: usize,
) -> Option<Result<Got, WireFault>>
    requires linked { IsLinked (W.log world.old) (W.top world.old) links.now }
    requires there { room ≤ length buffer.old }
    ensures linked { IsLinked (W.log world.new) (W.top world.new) links.now }
    ensures quiet { GrowsQuietly (W.log world.old) (W.log world.new) }
    ensures called { is_some result ≡ (has_link k links.now && nat_lt 0 room) }
    ensures told { AppendsAll (W.log world.old) (W.log world.new) (read_log k result (take room buffer.new)) }
    ensures within { IfSome result (λ r. IfOk r (IsWithin room)) }
    ensures top { W.top world.new ≡ W.top world.old }
    ensures faults { W.faults world.old ≤ W.faults world.new }
{
    let front = &mut buffer[..room];
    links.read(world, k, front)
}

/// What was found stands at the front of the buffer.
#[tactic(auto, using(pp_links::proofs::QuietLemmas::quiet_none))]
fn take_received<W: Wire>(
    desk: &mut Desk,
    links: &Links,
    shelf: &Shelf,
    world: &mut W,
    k: u64,
    found: &Option<Result<Got, WireFault>>,
)
    requires linked { IsLinked (W.log world.old) (W.top world.old) links.now }
    requires there { IfSome found.now (λ r. IfOk r (IsWithin (length desk.old.buffer.items))) }
    ensures linked { IsLinked (W.log world.new) (W.top world.new) links.now }
    ensures quiet { GrowsQuietly (W.log world.old) (W.log world.new) }
    ensures told { W.log world.new ≡ W.log world.old }
    ensures is { AreSeated desk.old.state → length desk.old.buffer.items ≤ vec_capacity desk.old.«data» → IsReceived found.now shelf.now k desk.old.buffer.items (both desk.old) (both desk.new) }
    ensures numbers { numbers_of desk.new.state.seats.items ≡ numbers_of desk.old.state.seats.items }
    ensures room { vec_capacity desk.old.«data» ≤ vec_capacity desk.new.«data» }
    ensures rest { record desk.new { state = desk.old.state; peers = desk.old.peers; «data» = desk.old.«data» } ≡ desk.old }
    ensures top { W.top world.new ≡ W.top world.old }
    ensures faults { W.faults world.old ≤ W.faults world.new }
{
    match found {
        Some(Ok(Got::Bytes(n))) => take_bytes(desk, links, shelf, world, k, *n),
        Some(Ok(Got::End)) => gone(desk, links, world, k, true),
        Some(Err(_)) => gone(desk, links, world, k, false),
        Some(Ok(Got::NotYet)) | None => {}
    }
}

/// So many bytes came; and replies that are over end.
#[tactic(auto, using(pp_links::proofs::QuietLemmas::quiet_none))]
fn take_bytes<W: Wire>(
    desk: &mut Desk,
    links: &Links,
    shelf: &Shelf,
    world: &mut W,
    k: u64,
    n: usize,
)
    requires linked { IsLinked (W.log world.old) (W.top world.old) links.now }
    requires there { n ≤ length desk.old.buffer.items }
    ensures linked { IsLinked (W.log world.new) (W.top world.new) links.now }
    ensures quiet { GrowsQuietly (W.log world.old) (W.log world.new) }
    ensures told { W.log world.new ≡ W.log world.old }
    ensures is { AreSeated desk.old.state → n ≤ vec_capacity desk.old.«data» → IsReceived (Some (Ok (Got.Bytes n))) shelf.now k desk.old.buffer.items (both desk.old) (both desk.new) }
    ensures numbers { numbers_of desk.new.state.seats.items ≡ numbers_of desk.old.state.seats.items }
    ensures room { vec_capacity desk.old.«data» ≤ vec_capacity desk.new.«data» }
    ensures rest { record desk.new { state = desk.old.state; peers = desk.old.peers; «data» = desk.old.«data» } ≡ desk.old }
    ensures top { W.top world.new ≡ W.top world.old }
    ensures faults { W.faults world.old ≤ W.faults world.new }
{
    bytes_came(desk, shelf, k, n);
    desk.end_replies(links, world);
}

/// Ours: a read takes no more than the pipe of the first exchange's client has room for.
fn read_room(desk: &mut Desk, k: u64) -> usize
    ensures room { AreSeated desk.old.state → result ≡ read_room k (parts desk.old.state) }
    ensures seats { desk.new.state.seats.items ≡ desk.old.state.seats.items }
    ensures rest { record desk.new { state = record desk.new.state { seats = desk.old.state.seats } } ≡ desk.old }
{
    let Some(number) = desk.state.flow.line(k, 0) else {
        return READ_LEN;
    };
    match desk.state.exchange(number) {
        None => READ_LEN,
        Some(e) => room_for(&mut desk.state, &e, READ_LEN),
    }
}

/// A response is whole, and the connection goes on or is closed.
pub(crate) fn end_response(desk: &mut Desk, k: u64)
    ensures is { AreSeated desk.old.state → sides desk.new ≡ response_whole k (sides desk.old) }
    ensures numbers { numbers_of desk.new.state.seats.items ≡ numbers_of desk.old.state.seats.items }
    ensures rest { KeepsDesk desk.old desk.new }
{
    let Some(number) = desk.state.flow.line(k, 0) else {
        return;
    };
    let Some(entry) = desk.state.flow.entry(number) else {
        return;
    };
    let e = entry.exchange;
    let (body_left, binds_connection) = (entry.errand.body_left, entry.errand.binds_connection);
    finish(&mut desk.state, &e);
    go_on_behind(desk, k, body_left, binds_connection);
}

fn go_on_behind(desk: &mut Desk, k: u64, body_left: u64, binds_connection: bool)
    ensures is { AreSeated desk.old.state → sides desk.new ≡ gone_on k body_left binds_connection (sides desk.old) }
    ensures numbers { numbers_of desk.new.state.seats.items ≡ numbers_of desk.old.state.seats.items }
    ensures rest { KeepsDesk desk.old desk.new }
{
    let goes_on = goes_on(desk, k, body_left, binds_connection);
    note_brought(&mut desk.peers, k);
    if !goes_on {
        desk.close_origin(k, true);
    }
}

fn goes_on(desk: &Desk, k: u64, body_left: u64, binds_connection: bool) -> bool
    ensures { result ≡ goes_on_by (find (is_number k) desk.entry.now.peers) body_left binds_connection }
{
    match desk.peers.get(k) {
        None => true,
        Some(peer) => may_go_on(peer.stays, body_left, binds_connection),
    }
}

/// A response outside the grammar, or one that its ask did not allow: its request's attempts end, and the
/// connection is closed. A head on a connection that brought a whole response before may be the rest of
/// that, and is a lost attempt. What comes before the first ask of the line was asked whole answers nobody: the
/// connection is closed as one that ended.
pub(crate) fn bad_response(desk: &mut Desk, k: u64)
    ensures is { AreSeated desk.old.state → sides desk.new ≡ bad_response k (sides desk.old) }
    ensures numbers { numbers_of desk.new.state.seats.items ≡ numbers_of desk.old.state.seats.items }
    ensures rest { KeepsDesk desk.old desk.new }
{
    let Some(number) = desk.state.flow.line(k, 0) else {
        return desk.close_origin(k, false);
    };
    let Some(entry) = desk.state.flow.entry(number) else {
        return desk.close_origin(k, false);
    };
    if !entry.is_outstanding() {
        return desk.close_origin(k, true);
    }
    let e = entry.exchange;
    refuse_answer(desk, k, number, &e);
}

fn refuse_answer(desk: &mut Desk, k: u64, number: u64, e: &Exchange)
    ensures is { AreSeated desk.old.state → sides desk.new ≡ bad_answer k number e.now (sides desk.old) }
    ensures numbers { numbers_of desk.new.state.seats.items ≡ numbers_of desk.old.state.seats.items }
    ensures rest { KeepsDesk desk.old desk.new }
{
    let may_be_rest = !e.headed && has_brought(desk, k);
    charge_by(&mut desk.state, may_be_rest, number, e);
    desk.close_origin(k, false);
}

fn has_brought(desk: &Desk, k: u64) -> bool
    ensures { result ≡ has_brought_in (find (is_number k) desk.entry.now.peers) }
{
    match desk.peers.get(k) {
        None => false,
        Some(peer) => peer.has_brought,
    }
}

/// The response to the exchange is whole, and it is over.
fn finish(state: &mut State, e: &Exchange)
    ensures is { AreSeated state.old → parts state.new ≡ finished e.now (parts state.old) }
    ensures numbers { numbers_of state.new.seats.items ≡ numbers_of state.old.seats.items }
    ensures rest { KeepsRest state.old state.new }
{
    pp_steps::finish(state, e);
}

/// The connection brought a whole response.
fn note_brought(peers: &mut Peers, k: u64)
    ensures { peers.new ≡ brought_by k (find (is_number k) peers.old) peers.old }
{
    if let Some(peer) = peers.get_mut(k) {
        peer.has_brought = true;
    }
}

/// An attempt is lost, or all end.
fn charge_by(state: &mut State, may_be_rest: bool, number: u64, e: &Exchange)
    ensures is { AreSeated state.old → parts state.new ≡ charged_by may_be_rest number e.now (parts state.old) }
    ensures numbers { numbers_of state.new.seats.items ≡ numbers_of state.old.seats.items }
    ensures rest { KeepsRest state.old state.new }
{
    if may_be_rest {
        state.lose_attempt(e);
    } else {
        state.fail(e);
        state.end(number);
    }
}

/// Behind a response the connection goes on unless it says otherwise, the request's body was not asked whole, or
/// the request authenticated the connection (RFC 4559, section 6).
fn may_go_on(stays: bool, body_left: u64, binds_connection: bool) -> bool
    ensures { result ≡ may_go_on stays body_left binds_connection }
{
    stays && body_left == 0 && !binds_connection
}
