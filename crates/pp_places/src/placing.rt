// Step 6: places of exchanges (RFC 2616, section 8.1).
ghost use Rattle.std.specs.Prelude.{◌≡◌, ◌≤◌, [], ◌∷◌, false, true, is_some, length, option_copied, None};
ghost use Rattle.std.specs.List.{find};
ghost use Rattle.pp_flow.specs.Changes.{entry_of};
ghost use Rattle.pp_flow.specs.Entries.{is_number as is_exchange};
ghost use Rattle.pp_links.specs.Leading.{LeadsOn};
ghost use Rattle.pp_links.specs.Links.{IsLinked, without};
ghost use Rattle.pp_links.specs.Quiet.{GrowsQuietly};
ghost use Rattle.pp_peers.specs.Peers.{is_number, without as without_peer};
ghost use Rattle.pp_pipe.specs.Line.{pushed_where};
ghost use Rattle.pp_places.specs.Around.{around, moment_of};
ghost use Rattle.pp_desk.specs.Closings.{KeepsDesk, has_closing, sides, with_parts};
ghost use Rattle.pp_places.specs.Placing.{ArePlaced, IsPlaced, goes_on_behind, host_of, is_put, next_waiting, place_for, put_last, put_on, put_text, put_text_where, takes, takes_on, text_on};
ghost use Rattle.pp_desk.specs.Shutting.{closings};
ghost use Rattle.pp_state.specs.Astray.{astray_where};
ghost use Rattle.pp_state.specs.Ends.{numbers_of, AreSeated};
ghost use Rattle.pp_world.specs.Log.{AppendsAll};

use crate::dialling::dial;
use pp_desk::Desk;
use pp_flow::{Entry, Flow};
use pp_links::Links;
use pp_peers::{Peers, Placed};
use pp_pipe::Pipe;
use pp_world::Wire;

/// More than there can be to place in one turn.
const PLACES: u32 = 65_536;

/// Each exchange without a place gets one, in the order of their beginnings, where there is one. It comes behind
/// all closings, and makes none.
#[tactic(auto, using(pp_links::proofs::QuietLemmas::quiet_then, pp_links::proofs::QuietLemmas::quiet_none))]
pub fn place<W: Wire>(desk: &mut Desk, links: &mut Links, world: &mut W)
    requires linked { IsLinked (W.log world.old) (W.top world.old) links.old }
    requires closed { has_closing desk.old.peers ≡ false }
    ensures linked { IsLinked (W.log world.new) (W.top world.new) links.new }
    ensures quiet { GrowsQuietly (W.log world.old) (W.log world.new) }
    ensures is { AreSeated desk.old.state → LeadsOn (ArePlaced PLACES (moment_of desk.old.state) None) (around desk.old links.old (W.top world.old)) (around desk.new links.new (W.top world.new)) (W.log world.old) (W.log world.new) (W.faults world.old) (W.faults world.new) }
    ensures numbers { numbers_of desk.new.state.seats.items ≡ numbers_of desk.old.state.seats.items }
    ensures rest { KeepsDesk desk.old desk.new }
    ensures faults { W.faults world.old ≤ W.faults world.new }
{
    let mut after: Option<u64> = None;
    for _place in 0..PLACES {
        let Some(number) = desk.state.flow.waiting(after) else {
            return;
        };
        after = place_one(desk, links, world, number);
    }
    note_left(desk, after);
}

/// This life goes astray where one is left behind it.
fn note_left(desk: &mut Desk, after: Option<u64>)
    ensures is { sides desk.new ≡ with_parts (astray_where (is_some (next_waiting after (sides desk.old)))) (sides desk.old) }
    ensures numbers { numbers_of desk.new.state.seats.items ≡ numbers_of desk.old.state.seats.items }
    ensures rest { KeepsDesk desk.old desk.new }
{
    if desk.state.flow.waiting(after).is_some() {
        desk.state.is_astray = true;
    }
}

/// One exchange gets its place. The one behind which it goes on.
#[tactic(auto, using(pp_links::proofs::QuietLemmas::quiet_then, pp_links::proofs::QuietLemmas::quiet_none))]
fn place_one<W: Wire>(desk: &mut Desk, links: &mut Links, world: &mut W, number: u64) -> Option<u64>
    requires { IsLinked (W.log world.old) (W.top world.old) links.old }
    ensures after { result ≡ goes_on_behind (place_for desk.old.state.limits number (sides desk.old)) number }
    ensures linked { IsLinked (W.log world.new) (W.top world.new) links.new }
    ensures quiet { GrowsQuietly (W.log world.old) (W.log world.new) }
    ensures is { AreSeated desk.old.state → LeadsOn (IsPlaced (moment_of desk.old.state) number) (around desk.old links.old (W.top world.old)) (around desk.new links.new (W.top world.new)) (W.log world.old) (W.log world.new) (W.faults world.old) (W.faults world.new) }
    ensures numbers { numbers_of desk.new.state.seats.items ≡ numbers_of desk.old.state.seats.items }
    ensures rest { KeepsDesk desk.old desk.new }
    ensures faults { W.faults world.old ≤ W.faults world.new }
{
    match place_of(desk, number) {
        Placed::On(k) => {
            put_on(desk, number, k);
            Some(number)
        }
        Placed::Wait => Some(number),
        Placed::Dial => {
            dial(desk, links, world, number);
            None
        }
        Placed::CloseThenDial(k) => {
            give_way(desk, links, world, k);
            None
        }
    }
}

/// Where the exchange would be asked now.
fn place_of(desk: &Desk, number: u64) -> Placed
    ensures { result ≡ place_for desk.entry.now.state.limits number (sides desk.entry.now) }
{
    match desk.state.flow.entry(number) {
        None => Placed::Wait,
        Some(entry) => match host_of(entry) {
            None => Placed::Wait,
            Some(host) => {
                let port = entry.errand.place.port;
                let alone = entry.errand.goes_alone();
                desk.peers.place(desk.state.limits, host, port, alone)
            }
        }
    }
}

/// The exchange is the last of that line.
pub(crate) fn put_on(desk: &mut Desk, number: u64, k: u64)
    ensures is { sides desk.new ≡ put_on number k (sides desk.old) }
    ensures numbers { numbers_of desk.new.state.seats.items ≡ numbers_of desk.old.state.seats.items }
    ensures rest { KeepsDesk desk.old desk.new }
{
    let is_put = put_text(&mut desk.peers, &desk.state.flow, number, k);
    put_last(&mut desk.state.flow, is_put, number, k);
}

/// An idle connection gives way to a new one.
#[tactic(auto, using(pp_links::proofs::QuietLemmas::quiet_then, pp_links::proofs::QuietLemmas::quiet_none))]
fn give_way<W: Wire>(desk: &mut Desk, links: &mut Links, world: &mut W, k: u64)
    requires { IsLinked (W.log world.old) (W.top world.old) links.old }
    ensures linked { IsLinked (W.log world.new) (W.top world.new) links.new }
    ensures quiet { GrowsQuietly (W.log world.old) (W.log world.new) }
    ensures told { AppendsAll (W.log world.old) (W.log world.new) (λ l. closings (k ∷ []) links.old) }
    ensures links { links.new ≡ without k links.old }
    ensures top { W.top world.new ≡ W.top world.old }
    ensures rest { desk.new ≡ record desk.old { peers = without_peer k desk.old.peers } }
    ensures faults { W.faults world.old ≤ W.faults world.new }
{
    links.close(world, k);
    desk.peers.gone(k);
}

/// The host that its key names.
pub(crate) fn host_of(entry: &Entry) -> Option<&[u8]>
    ensures { option_copied result ≡ host_of entry.now }
{
    let (from, to) = entry.errand.place.host;
    if from <= to && to <= entry.key.len() {
        Some(&entry.key.as_slice()[from..to])
    } else {
        None
    }
}

/// Its text is the last in the pipe of that connection, where it has no place yet and there is room. Whether it is.
fn put_text(peers: &mut Peers, flow: &Flow, number: u64, k: u64) -> bool
    ensures answer { result ≡ is_put number k (entry_of number flow.now) flow.now peers.old }
    ensures waits { result ≡ true → is_some (find (is_exchange number) flow.now.waiting) ≡ true }
    ensures peers { peers.new ≡ put_text number k (entry_of number flow.now) flow.now peers.old }
{
    match flow.entry(number) {
        None => false,
        Some(entry) => flow.waits(number) && put_entry(peers, entry, k),
    }
}

fn put_entry(peers: &mut Peers, entry: &Entry, k: u64) -> bool
    ensures answer { result ≡ takes_on (length entry.now.text.items) (find (is_number k) peers.old) }
    ensures peers { peers.new ≡ text_on k entry.now.text.items entry.now.errand.asks_head (find (is_number k) peers.old) peers.old }
{
    match peers.pipe(k) {
        None => false,
        Some(pipe) => push(pipe, entry.text.as_slice(), entry.errand.asks_head),
    }
}

#[tactic(auto, using(crate::proofs::PlacingLemmas::pushed_ok))]
fn push(pipe: &mut Pipe, text: &[u8], asks_head: bool) -> bool
    ensures answer { result ≡ takes (length text.now) pipe.old }
    ensures line { pipe.new ≡ pushed_where result text.now asks_head pipe.old }
{
    text.len() <= pipe.room() && pipe.push(text, asks_head).is_ok()
}

/// It has its place, and nothing of it was asked there.
fn put_last(flow: &mut Flow, is_put: bool, number: u64, k: u64)
    requires { is_put ≡ true → is_some (find (is_exchange number) flow.old.waiting) ≡ true }
    ensures { flow.new ≡ put_last is_put number k flow.old }
{
    if is_put {
        flow.set_place(number, k);
        if let Some(errand) = flow.errand_mut(number) {
            errand.asked = 0;
        }
    }
}
