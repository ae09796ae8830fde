// Step 1: the event, with at most one read or one write.
ghost use Rattle.std.specs.Prelude.{◌≡◌, ◌≤◌, ◌⊎◌, true, false, length, map, max, vec_capacity, IfSome, Some};
ghost use Rattle.std.specs.List.{find};
ghost use Rattle.pp_proxy.specs.Accepting.{newcomer, IsAccepted, IsSeated, IsTurnedAway};
ghost use Rattle.pp_proxy.specs.Handling.{reached_in, Breaks, Handles, Reaches, ReadsAt, Stops, Wakes, WritesAt};
ghost use Rattle.pp_proxy.specs.Moving.{turning};
ghost use Rattle.pp_links.specs.Links.{IsLinked};
ghost use Rattle.pp_links.specs.Quiet.{GrowsQuietly};
ghost use Rattle.pp_peers.specs.Peers.{is_number};
ghost use Rattle.pp_desk.specs.Closings.{sides};
ghost use Rattle.pp_proxy.specs.Ticks.{ticked};
ghost use Rattle.pp_state.specs.Astray.{gone_astray};
ghost use Rattle.pp_state.specs.Ends.{numbers_of, AreSeated};
ghost use Rattle.pp_decide.specs.Patience.{is_leap};
ghost use Rattle.pp_state.specs.Numbers.{places};
ghost use Rattle.pp_due.specs.Waits.{woken_seat};
ghost use Rattle.pp_shelf.specs.Steady.{GrowsSteadily};
ghost use Rattle.pp_desk.specs.Anything.{anything};
ghost use Rattle.pp_store.specs.Held.{Holds};
ghost use Rattle.pp_world.specs.Log.{Told};

use pp_client::Client;
use pp_desk::Desk;
use pp_due::renew_marks;
use pp_links::Links;
use pp_origins::{ask, close_idle, gone, receive};
use pp_peers::Peers;
use pp_seats::{Account, Seat};
use pp_shelf::Shelf;
use pp_state::State;
use pp_talk::{hear, load_and_say};
use pp_world::{Event, Source, Wire, World};

/// Ours: a tick that comes so many seconds behind the last one, as long as a client that is amid no reply may be idle, tells
/// of a computer that was asleep.
const LEAP_SECONDS: u64 = 120;

/// Takes the event in.
#[tactic(auto, using(pp_desk::proofs::DiskLemmas::holds_quietly, pp_shelf::proofs::SteadyLemmas::steady_then, pp_shelf::proofs::SteadyLemmas::steady_none, pp_shelf::proofs::SteadyLemmas::quiet_is_steady))]
pub(crate) fn handle<W: World>(
    desk: &mut Desk,
    links: &mut Links,
    shelf: &mut Shelf,
    world: &mut W,
    event: Event,
)
    requires linked { IsLinked (W.log world.old) (W.top world.old) links.old }
    requires holds { Told (W.log world.old) (Holds anything shelf.old) }
    ensures linked { IsLinked (W.log world.new) (W.top world.new) links.new }
    ensures holds { Told (W.log world.new) (Holds anything shelf.new) }
    ensures steady { GrowsSteadily (W.log world.old) (W.log world.new) }
    ensures is { AreSeated desk.old.state → Handles event (turning shelf.old desk.old links.old (W.top world.old) (W.log world.old) (W.faults world.old)) (turning shelf.new desk.new links.new (W.top world.new) (W.log world.new) (W.faults world.new)) }
    ensures faults { W.faults world.old ≤ W.faults world.new }
{
    match event {
        Event::Stop => stop(desk),
        Event::Tick(seconds) => tick(desk, seconds),
        Event::Accepted(c) => accept(desk, c),
        Event::Readable(id) => read(desk, links, shelf, world, id),
        Event::Writable(id) => write(desk, links, shelf, world, id),
        Event::Reached(k) => reach(desk, k),
        Event::Broken(k) => lose(desk, links, world, k),
    }
}

/// All is to be closed, and all are looked at.
fn stop(desk: &mut Desk)
    ensures { Stops desk.old desk.new }
{
    desk.state.is_stopped = true;
    desk.state.wake();
}

/// A client, or an origin, is read once.
#[tactic(auto, using(pp_desk::proofs::DiskLemmas::holds_quietly, pp_shelf::proofs::SteadyLemmas::steady_then, pp_shelf::proofs::SteadyLemmas::steady_none, pp_shelf::proofs::SteadyLemmas::quiet_is_steady))]
fn read<W: World>(desk: &mut Desk, links: &mut Links, shelf: &Shelf, world: &mut W, id: u64)
    requires linked { IsLinked (W.log world.old) (W.top world.old) links.old }
    ensures linked { IsLinked (W.log world.new) (W.top world.new) links.new }
    ensures quiet { GrowsQuietly (W.log world.old) (W.log world.new) }
    ensures is { AreSeated desk.old.state → ReadsAt id (turning shelf.now desk.old links.old (W.top world.old) (W.log world.old) (W.faults world.old)) (turning shelf.now desk.new links.new (W.top world.new) (W.log world.new) (W.faults world.new)) }
    ensures faults { W.faults world.old ≤ W.faults world.new }
{
    wake(desk, id);
    match desk.state.seat_of(id) {
        Some(i) => {
            desk.state.rouse(i);
            hear(desk, links, world, i);
        }
        None => receive(desk, links, shelf, world, id),
    }
}

/// A client is said what is at hand for it, or an origin is asked what is left to ask.
#[tactic(auto, using(pp_desk::proofs::DiskLemmas::holds_quietly, pp_shelf::proofs::SteadyLemmas::steady_then, pp_shelf::proofs::SteadyLemmas::steady_none, pp_shelf::proofs::SteadyLemmas::quiet_is_steady))]
fn write<W: World>(desk: &mut Desk, links: &mut Links, shelf: &mut Shelf, world: &mut W, id: u64)
    requires linked { IsLinked (W.log world.old) (W.top world.old) links.old }
    requires holds { Told (W.log world.old) (Holds anything shelf.old) }
    ensures linked { IsLinked (W.log world.new) (W.top world.new) links.new }
    ensures holds { Told (W.log world.new) (Holds anything shelf.new) }
    ensures steady { GrowsSteadily (W.log world.old) (W.log world.new) }
    ensures is { AreSeated desk.old.state → WritesAt id (turning shelf.old desk.old links.old (W.top world.old) (W.log world.old) (W.faults world.old)) (turning shelf.new desk.new links.new (W.top world.new) (W.log world.new) (W.faults world.new)) }
    ensures faults { W.faults world.old ≤ W.faults world.new }
{
    wake(desk, id);
    match desk.state.seat_of(id) {
        Some(i) => {
            desk.state.rouse(i);
            load_and_say(desk, links, shelf, world, i);
        }
        None => ask(desk, links, world, id),
    }
}

/// Attempts count anew for those whose next byte is held, and the connection is not idle.
fn wake(desk: &mut Desk, id: u64)
    ensures is { AreSeated desk.old.state → Wakes id desk.old desk.new }
    ensures numbers { numbers_of desk.new.state.seats.items ≡ numbers_of desk.old.state.seats.items }
{
    desk.state.regain();
    desk.touch(id);
}

/// The connection to an origin was reached.
fn reach(desk: &mut Desk, k: u64)
    ensures { AreSeated desk.old.state → Reaches k desk.old desk.new }
{
    desk.touch(k);
    note_reached(&mut desk.peers, k);
}

fn note_reached(peers: &mut Peers, k: u64)
    ensures { peers.new ≡ reached_in (find (is_number k) peers.old) k peers.old }
{
    if let Some(peer) = peers.get_mut(k) {
        peer.is_reached = true;
    }
}

/// The connection to an origin broke, or could not be made.
#[tactic(auto, using(pp_links::proofs::QuietLemmas::quiet_none))]
fn lose<W: Wire>(desk: &mut Desk, links: &Links, world: &mut W, k: u64)
    requires { IsLinked (W.log world.old) (W.top world.old) links.now }
    ensures linked { IsLinked (W.log world.new) (W.top world.new) links.now }
    ensures quiet { GrowsQuietly (W.log world.old) (W.log world.new) }
    ensures told { W.log world.new ≡ W.log world.old }
    ensures is { AreSeated desk.old.state → Breaks k desk.old desk.new }
    ensures faults { W.faults world.old ≤ W.faults world.new }
    ensures top { W.top world.new ≡ W.top world.old }
{
    desk.state.regain();
    gone(desk, links, world, k, false);
}

/// A client has come. Where there is no memory for it, it is turned away, and this life goes astray.
fn accept(desk: &mut Desk, c: u64)
    ensures { IsAccepted c desk.old desk.new }
{
    match newcomer(desk, c) {
        None => refuse(desk, c),
        Some(seat) => take_seat(desk, c, seat),
    }
}

/// Its seat, where there is memory for it.
fn newcomer(desk: &Desk, c: u64) -> Option<Seat>
    ensures { IfSome result (λ seat. seat ≡ newcomer c desk.entry.now) }
{
    let client = Client::new(desk.state.alloc, c, desk.state.now).ok()?;
    let mut seat = Seat::new(client);
    if desk.logs_replies {
        seat.account = Account::Due(Source::Hit);
    }
    Some(seat)
}

/// It is the last, and is looked at.
fn take_seat(desk: &mut Desk, c: u64, seat: Seat)
    ensures { IsSeated seat desk.old desk.new ⊎ IsTurnedAway c desk.old desk.new }
{
    let place = desk.state.seats.len();
    if desk.state.seats.push(seat).is_err() {
        refuse(desk, c);
    } else {
        desk.state.rouse(place);
    }
}

/// There is no memory for it.
fn refuse(desk: &mut Desk, c: u64)
    ensures { desk.new ≡ record desk.old { turned_away = Some c; state = gone_astray desk.old.state } }
{
    desk.turned_away = Some(c);
    desk.state.is_astray = true;
}

/// The clock never goes back. The first tick of a life, and one that leaps, mark all: each waits its patience
/// anew from there.
fn tick(desk: &mut Desk, seconds: u64)
    ensures is { AreSeated desk.old.state → sides desk.new ≡ ticked (max desk.old.state.now seconds) desk.old.state (sides desk.old) }
    ensures awake { length desk.old.state.seats.items ≤ vec_capacity desk.old.state.awake → desk.new.state.awake.items ≡ places (length desk.old.state.seats.items) }
    ensures room { vec_capacity desk.old.state.awake ≤ vec_capacity desk.new.state.awake }
    ensures rest { record desk.new { state = record desk.new.state { seats = desk.old.state.seats; flow = desk.old.state.flow; cache = desk.old.state.cache; refused = desk.old.state.refused; is_astray = desk.old.state.is_astray; awake = desk.old.state.awake }; peers = desk.old.peers } ≡ record desk.old { state = record desk.old.state { now = max desk.old.state.now seconds; has_ticked = true; is_ticked = true; has_lost_draft = false } } }
{
    let now = desk.state.now.max(seconds);
    desk.mark_where(is_leap(desk, now), now);
    begin_second(&mut desk.state, now);
    close_idle(desk);
}

fn is_leap(desk: &Desk, now: u64) -> bool
    ensures { result ≡ is_leap now desk.now.state.has_ticked desk.now.state.now }
{
    !desk.state.has_ticked || LEAP_SECONDS <= now.saturating_sub(desk.state.now)
}

/// Who waited for an exchange is not idle, and all are looked at.
fn begin_second(state: &mut State, now: u64)
    ensures seats { state.new.seats.items ≡ map (woken_seat now state.old) state.old.seats.items }
    ensures awake { length state.old.seats.items ≤ vec_capacity state.old.awake → state.new.awake.items ≡ places (length state.old.seats.items) }
    ensures room { vec_capacity state.old.awake ≤ vec_capacity state.new.awake }
    ensures rest { record state.new { seats = state.old.seats; awake = state.old.awake } ≡ record state.old { now = now; has_ticked = true; is_ticked = true; has_lost_draft = false } }
{
    renew_marks(state, now);
    state.now = now;
    state.has_ticked = true;
    state.is_ticked = true;
    state.has_lost_draft = false;
    state.wake();
}
