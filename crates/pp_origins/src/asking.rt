// Step 1: what an origin is asked (RFC 2616, sections 5 and 8.2).
ghost use Rattle.std.specs.Prelude.{◌≡◌, ◌≤◌, IfOk, IfSome, length, slice_get, take, vec_capacity};
ghost use Rattle.std.specs.List.{find};
ghost use Rattle.pp_client.specs.Requests.{body_in};
ghost use Rattle.pp_links.specs.Links.{IsLinked};
ghost use Rattle.pp_links.specs.Quiet.{GrowsQuietly};
ghost use Rattle.pp_peers.specs.Peers.{is_number};
ghost use Rattle.pp_origins.specs.Asked.{Asks, BodyIsAsked, TakenAs, TextIsAsked, asked_more, asked_of_body, body_asked, body_sent, on_errand, pipe_taken, text_asked};
ghost use Rattle.pp_desk.specs.Closings.{KeepsDesk, sides};
ghost use Rattle.pp_state.specs.Ends.{changed_at, numbers_of, AreSeated};

use crate::ended::gone;
use pp_desk::Desk;
use pp_flow::Flow;
use pp_links::Links;
use pp_peers::Peers;
use pp_seats::Seat;
use pp_state::Asking;
use pp_world::{Wire, WireFault};

/// Offers the origin what is left to ask.
#[tactic(auto, using(pp_links::proofs::QuietLemmas::quiet_none))]
pub fn ask<W: Wire>(desk: &mut Desk, links: &Links, world: &mut W, k: u64)
    requires { IsLinked (W.log world.old) (W.top world.old) links.now }
    ensures linked { IsLinked (W.log world.new) (W.top world.new) links.now }
    ensures quiet { GrowsQuietly (W.log world.old) (W.log world.new) }
    ensures is { AreSeated desk.old.state → Asks k desk.old.state.now desk.old.state.awake.items links.now (sides desk.old) (sides desk.new) (W.log world.old) (W.log world.new) }
    ensures numbers { numbers_of desk.new.state.seats.items ≡ numbers_of desk.old.state.seats.items }
    ensures rest { KeepsDesk desk.old (record desk.new { «data» = desk.old.«data» }) }
    ensures room { vec_capacity desk.old.«data» ≤ vec_capacity desk.new.«data» }
    ensures top { W.top world.new ≡ W.top world.old }
    ensures faults { W.faults world.old ≤ W.faults world.new }
{
    match desk.state.asking(k) {
        None => {}
        Some(Asking::Text(number, left)) => ask_text(desk, links, world, k, number, left),
        Some(Asking::Body(number, left, i)) => {
            ask_body(desk, links, world, k, number, left, i);
        }
    }
}

#[tactic(auto, using(pp_links::proofs::QuietLemmas::quiet_none))]
fn ask_text<W: Wire>(
    desk: &mut Desk,
    links: &Links,
    world: &mut W,
    k: u64,
    number: u64,
    left: usize,
)
    requires { IsLinked (W.log world.old) (W.top world.old) links.now }
    ensures linked { IsLinked (W.log world.new) (W.top world.new) links.now }
    ensures quiet { GrowsQuietly (W.log world.old) (W.log world.new) }
    ensures is { AreSeated desk.old.state → TextIsAsked (find (is_number k) desk.old.peers) k number left desk.old.state.now desk.old.state.awake.items links.now (sides desk.old) (sides desk.new) (W.log world.old) (W.log world.new) }
    ensures numbers { numbers_of desk.new.state.seats.items ≡ numbers_of desk.old.state.seats.items }
    ensures rest { KeepsDesk desk.old (record desk.new { «data» = desk.old.«data» }) }
    ensures room { vec_capacity desk.old.«data» ≤ vec_capacity desk.new.«data» }
    ensures top { W.top world.new ≡ W.top world.old }
    ensures faults { W.faults world.old ≤ W.faults world.new }
{
    let Some(peer) = desk.peers.get(k) else {
        return;
    };
    let text = front_of(peer.pipe.out(), left as u64);
    let took = links.write(world, k, text);
    note_text(desk, links, world, k, number, &took);
}

fn note_text<W: Wire>(
    desk: &mut Desk,
    links: &Links,
    world: &mut W,
    k: u64,
    number: u64,
    took: &Option<Result<usize, WireFault>>,
)
    requires linked { IsLinked (W.log world.old) (W.top world.old) links.now }
    requires within { IfSome took.now (λ r. IfOk r (λ n. IfSome (find (is_number k) desk.old.peers) (λ peer. n ≤ length peer.pipe.out))) }
    ensures linked { IsLinked (W.log world.new) (W.top world.new) links.now }
    ensures told { W.log world.new ≡ W.log world.old }
    ensures is { AreSeated desk.old.state → TakenAs took.now k desk.old.state.awake.items (text_asked k number desk.old.state.now) (sides desk.old) (sides desk.new) }
    ensures numbers { numbers_of desk.new.state.seats.items ≡ numbers_of desk.old.state.seats.items }
    ensures rest { KeepsDesk desk.old (record desk.new { «data» = desk.old.«data» }) }
    ensures room { vec_capacity desk.old.«data» ≤ vec_capacity desk.new.«data» }
    ensures top { W.top world.new ≡ W.top world.old }
    ensures faults { W.faults world.old ≤ W.faults world.new }
{
    match took {
        Some(Ok(n)) => {
            take_text(&mut desk.peers, k, *n);
            note_asked(&mut desk.state.flow, number, *n, desk.state.now);
        }
        Some(Err(_)) => gone(desk, links, world, k, false),
        None => {}
    }
}

#[tactic(auto, using(pp_links::proofs::QuietLemmas::quiet_none))]
fn ask_body<W: Wire>(
    desk: &mut Desk,
    links: &Links,
    world: &mut W,
    k: u64,
    number: u64,
    left: u64,
    i: usize,
)
    requires { IsLinked (W.log world.old) (W.top world.old) links.now }
    ensures linked { IsLinked (W.log world.new) (W.top world.new) links.now }
    ensures quiet { GrowsQuietly (W.log world.old) (W.log world.new) }
    ensures is { AreSeated desk.old.state → BodyIsAsked (slice_get desk.old.state.seats.items i) k number left i desk.old.state.awake.items links.now (sides desk.old) (sides desk.new) (W.log world.old) (W.log world.new) }
    ensures numbers { numbers_of desk.new.state.seats.items ≡ numbers_of desk.old.state.seats.items }
    ensures rest { KeepsDesk desk.old (record desk.new { «data» = desk.old.«data» }) }
    ensures room { vec_capacity desk.old.«data» ≤ vec_capacity desk.new.«data» }
    ensures top { W.top world.new ≡ W.top world.old }
    ensures faults { W.faults world.old ≤ W.faults world.new }
{
    let Some(seat) = desk.state.seats.get(i) else {
        return;
    };
    let body = front_of(seat.client.body(), left);
    let took = links.write(world, k, body);
    note_body(desk, links, world, k, number, i, &took);
}

fn note_body<W: Wire>(
    desk: &mut Desk,
    links: &Links,
    world: &mut W,
    k: u64,
    number: u64,
    i: usize,
    took: &Option<Result<usize, WireFault>>,
)
    requires linked { IsLinked (W.log world.old) (W.top world.old) links.now }
    requires within { IfSome took.now (λ r. IfOk r (λ n. IfSome (slice_get desk.old.state.seats.items i) (λ seat. n ≤ length (body_in seat.client.heard)))) }
    ensures linked { IsLinked (W.log world.new) (W.top world.new) links.now }
    ensures told { W.log world.new ≡ W.log world.old }
    ensures is { AreSeated desk.old.state → TakenAs took.now k desk.old.state.awake.items (body_asked number i) (sides desk.old) (sides desk.new) }
    ensures numbers { numbers_of desk.new.state.seats.items ≡ numbers_of desk.old.state.seats.items }
    ensures rest { KeepsDesk desk.old (record desk.new { «data» = desk.old.«data» }) }
    ensures room { vec_capacity desk.old.«data» ≤ vec_capacity desk.new.«data» }
    ensures top { W.top world.new ≡ W.top world.old }
    ensures faults { W.faults world.old ≤ W.faults world.new }
{
    match took {
        Some(Ok(n)) => {
            take_body(&mut desk.state.seats, i, *n);
            note_body_asked(&mut desk.state.flow, number, *n);
        }
        Some(Err(_)) => gone(desk, links, world, k, false),
        None => {}
    }
}

/// So many bytes of what is to be written there were.
fn take_text(peers: &mut Peers, k: u64, n: usize)
    requires { IfSome (find (is_number k) peers.old) (λ peer. n ≤ length peer.pipe.out) }
    ensures { peers.new ≡ pipe_taken k n (find (is_number k) peers.old) peers.old }
{
    if let Some(pipe) = peers.pipe(k) {
        pipe.took(n);
    }
}

/// So many bytes of its text were asked now.
fn note_asked(flow: &mut Flow, number: u64, n: usize, now: u64)
    ensures { flow.new ≡ on_errand number (asked_more n now) flow.old }
{
    if let Some(errand) = flow.errand_mut(number) {
        errand.asked = errand.asked.saturating_add(n);
        errand.requested = now;
    }
}

/// So many bytes of the body of its request were asked.
fn note_body_asked(flow: &mut Flow, number: u64, n: usize)
    ensures { flow.new ≡ on_errand number (asked_of_body n) flow.old }
{
    if let Some(errand) = flow.errand_mut(number) {
        errand.body_left = errand.body_left.saturating_sub(n as u64);
    }
}

/// The client at this place sent them.
#[tactic(auto, using(pp_state::proofs::PlacesLemmas::changed_here, pp_state::proofs::PlacesLemmas::same_numbers, pp_desk::proofs::ClosingLemmas::none_changed))]
fn take_body(seats: &mut [Seat], i: usize, n: usize)
    requires { IfSome (slice_get seats.old i) (λ seat. n ≤ length (body_in seat.client.heard)) }
    ensures is { seats.new ≡ changed_at i (body_sent n) seats.old }
    ensures numbers { numbers_of seats.new ≡ numbers_of seats.old }
{
    if i < seats.len() {
        send_body(&mut seats[i], n);
    }
}

fn send_body(seat: &mut Seat, n: usize)
    requires { n ≤ length (body_in seat.old.client.heard) }
    ensures { seat.new ≡ body_sent n seat.old }
{
    seat.client.body_took(n);
    seat.body_left = seat.body_left.saturating_sub(n as u64);
}

/// So many bytes at the front, or all.
fn front_of(bytes: &[u8], most: u64) -> &[u8]
    ensures { result.now ≡ take most bytes.now }
{
    let most = usize::try_from(most).unwrap_or(usize::MAX);
    &bytes[..most.min(bytes.len())]
}
