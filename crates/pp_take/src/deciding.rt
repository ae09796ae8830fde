// What a decision does: a page, an exchange, or a reply by the row (RFC 2616, sections 13 and 14).
ghost use Rattle.std.specs.Prelude.{◌≡◌, ◌||◌, IfSome, option_map};
ghost use Rattle.pp_head.specs.Shown.{shown_request};
ghost use Rattle.pp_objects.specs.Instances.{id_of, in_slot};
ghost use Rattle.pp_ranges.specs.Ranges.{range_of};
ghost use Rattle.pp_seats.specs.Decided.{answering, asking, with_interim};
ghost use Rattle.pp_take.specs.Deciding.{Does, IsPaged, IsRefused, Takes, afforded, aim_for, answered_at, ask_at, ask_by, asks_hole, asks_origin, begun_at, exchange_begun, followed_at, followed_more, is_moved_in, is_pass, is_served_by, left_useless, marked_at, marked_for, may_ask_for, of_request, origin_asked, relayed, row_at};
ghost use Rattle.pp_state.specs.Ends.{KeepsRest, numbers_of, on_seat, parts};
ghost use Rattle.pp_state.specs.Places.{IsChangedAt};
ghost use Rattle.pp_valid.specs.Codings.{accepts_only_identity};

use arrayvec::ArrayVec;
use pp_ask::ASK_LEN;
use pp_cache::Cache;
use pp_client::Current;
use pp_decide::{kind_of, write_text};
use pp_flow::{Aim, Body, EXCHANGES, Errand, Kind};
use pp_fresh::allows_guess;
use pp_head::RequestHead;
use pp_objects::ObjectId;
use pp_ranges::{Range, read_range};
use pp_seats::{Asked, Key, Seat};
use pp_state::{State, is_for_memory, may_answer};
use pp_valid::accepts_only_identity;
use pp_world::Decision;
use std::alloc::Global;

/// The decision that is taken: where there is no memory to ask, a refusal.
pub fn afforded(state: &State, i: usize, decision: Decision) -> Decision
    ensures { result ≡ afforded i decision state.entry.now }
{
    if asks_origin(decision) && !may_ask_for(state, i) {
        Decision::Refuse(500)
    } else {
        decision
    }
}

fn may_ask_for(state: &State, i: usize) -> bool
    ensures { result ≡ may_ask_for i state.entry.now }
{
    let has_key = match state.seats.get(i) {
        None => false,
        Some(seat) => seat.front.key().is_some(),
    };
    has_key && state.may_ask()
}

/// Each decision but one for want of memory marks the row of its key.
pub fn take(state: &mut State, i: usize, decision: Decision)
    ensures is { Takes state.old.name.items i decision (parts state.old) (parts state.new) }
    ensures numbers { numbers_of state.new.seats.items ≡ numbers_of state.old.seats.items }
    ensures rest { KeepsRest state.old state.new }
{
    mark_row_for(state, i, decision);
    state.account_for(i, decision);
    carry_out(state, i, decision);
}

fn carry_out(state: &mut State, i: usize, decision: Decision)
    ensures is { Does state.old.name.items i decision (parts state.old) (parts state.new) }
    ensures numbers { numbers_of state.new.seats.items ≡ numbers_of state.old.seats.items }
    ensures rest { KeepsRest state.old state.new }
{
    match decision {
        Decision::Refuse(status) => refuse(state, i, status),
        Decision::Pass | Decision::Fetch | Decision::Validate => ask_origin(state, i, decision),
        Decision::Relay => relay(state, i),
        Decision::Hit(from, to) | Decision::Part(from, to) => {
            follow_row(state, i, decision, (from, to));
        }
        Decision::Head | Decision::NotModified | Decision::Unsatisfiable => {
            follow_row(state, i, decision, (0, 0));
        }
    }
}

fn mark_row_for(state: &mut State, i: usize, decision: Decision)
    ensures is { parts state.new ≡ marked_for i decision (parts state.old) }
    ensures seats { state.new.seats ≡ state.old.seats }
    ensures rest { KeepsRest state.old state.new }
{
    if !is_for_memory(decision) {
        mark_row(state, i);
    }
}

fn mark_row(state: &mut State, i: usize)
    ensures is { parts state.new ≡ marked_at i (parts state.old) }
    ensures seats { state.new.seats ≡ state.old.seats }
    ensures rest { KeepsRest state.old state.new }
{
    let Some(id) = row_at(state, i) else {
        return;
    };
    state.cache.mark(id);
}

/// The row of the key of the client at this place.
fn row_at(state: &State, i: usize) -> Option<ObjectId>
    ensures is { result ≡ option_map id_of (row_at i (parts state.entry.now)) }
    ensures there { IfSome result (λ id. in_slot id.slot state.entry.now.cache.instances ≡ row_at i (parts state.entry.now)) }
{
    let seat = state.seats.get(i)?;
    let key = seat.front.key()?;
    state.cache.current(key.text())
}

#[tactic(auto, using(crate::proofs::DecidingLemmas::interim_number, pp_state::proofs::PlacesLemmas::same_numbers))]
fn begin_interim(state: &mut State, i: usize)
    ensures is { parts state.new ≡ on_seat i with_interim (parts state.old) }
    ensures numbers { numbers_of state.new.seats.items ≡ numbers_of state.old.seats.items }
    ensures rest { KeepsRest state.old state.new }
{
    if let Some(seat) = state.seats.get_mut(i) {
        seat.begin_interim();
    }
}

// ---- a page

fn refuse(state: &mut State, i: usize, status: u16)
    ensures is { IsRefused i status (parts state.old) (parts state.new) }
    ensures numbers { numbers_of state.new.seats.items ≡ numbers_of state.old.seats.items }
    ensures rest { KeepsRest state.old state.new }
{
    begin_interim(state, i);
    state.leave_source(i);
    state.leave_exchange(i);
    give_page(state, i, status);
}

#[tactic(auto, using(pp_state::proofs::PlacesLemmas::same_numbers))]
fn give_page(state: &mut State, i: usize, status: u16)
    ensures seat { IsChangedAt (IsPaged status) i state.old.seats.items state.new.seats.items }
    ensures numbers { numbers_of state.new.seats.items ≡ numbers_of state.old.seats.items }
    ensures rest { record state.new { seats = state.old.seats } ≡ state.old }
{
    if let Some(seat) = state.seats.get_mut(i) {
        give_page_to(seat, state.alloc, status);
    }
}

// ---- an exchange

fn ask_origin(state: &mut State, i: usize, decision: Decision)
    ensures is { parts state.new ≡ origin_asked state.old.name.items i decision (parts state.old) }
    ensures numbers { numbers_of state.new.seats.items ≡ numbers_of state.old.seats.items }
    ensures rest { KeepsRest state.old state.new }
{
    let mut text = ArrayVec::new();
    let Some(errand) = errand_for(state, i, decision, &mut text) else {
        return;
    };
    begin_interim(state, i);
    state.leave_source(i);
    let passes = is_pass(decision);
    begin_exchange(state, i, aim_for(passes), &errand, &text);
    wait_for(state, i, passes);
}

#[tactic(auto, using(pp_state::proofs::PlacesLemmas::same_numbers))]
fn wait_for(state: &mut State, i: usize, passes: bool)
    ensures is { parts state.new ≡ on_seat i (asking passes) (parts state.old) }
    ensures numbers { numbers_of state.new.seats.items ≡ numbers_of state.old.seats.items }
    ensures rest { KeepsRest state.old state.new }
{
    if let Some(seat) = state.seats.get_mut(i) {
        seat.ask(passes);
    }
}

/// The request asks this exchange. The one begun last is the only one of a request: the one before is left.
pub(crate) fn begin_exchange(
    state: &mut State,
    i: usize,
    aim: Aim,
    errand: &Errand,
    text: &ArrayVec<u8, ASK_LEN>,
)
    ensures is { parts state.new ≡ exchange_begun i aim errand.now text.now.items (parts state.old) }
    ensures numbers { numbers_of state.new.seats.items ≡ numbers_of state.old.seats.items }
    ensures rest { KeepsRest state.old state.new }
{
    state.leave_exchange(i);
    begin_at(state, i, aim, errand, text);
}

fn begin_at(state: &mut State, i: usize, aim: Aim, errand: &Errand, text: &ArrayVec<u8, ASK_LEN>)
    ensures is { parts state.new ≡ begun_at i aim errand.now text.now.items (parts state.old) }
    ensures rest { record state.new { flow = state.old.flow } ≡ state.old }
{
    let Some(seat) = state.seats.get(i) else {
        return;
    };
    let Some(key) = seat.front.key() else {
        return;
    };
    if state.flow.len() < EXCHANGES && state.flow.begun() < u64::MAX {
        let client = seat.client.id();
        let _ = state
            .flow
            .begin(client, key.text(), aim, errand, text.as_slice());
    }
}

/// The errand of a decision that asks an origin, whose text is written.
fn errand_for(
    state: &State,
    i: usize,
    decision: Decision,
    text: &mut ArrayVec<u8, ASK_LEN>,
) -> Option<Errand>
    ensures { option_map (λ errand. (errand, text.new.items)) result ≡ ask_at state.entry.now.name.items i decision (parts state.entry.now) }
{
    let seat = state.seats.get(i)?;
    let asked = seat.front.asked()?;
    let key = asked.key.as_ref()?;
    let Current::Request(head, _) = seat.client.current() else {
        return None;
    };
    let kind = kind_of(&head, state.cache.version(key.text()), decision)?;
    let errand = errand_of(state, asked, key, &head, kind, text)?;
    Some(of_request(asked, seat.body_left, &head, errand))
}

/// The errand of an exchange that asks this for a request, whose text is written. None where that does not fit.
pub(crate) fn errand_of(
    state: &State,
    asked: &Asked,
    key: &Key,
    head: &RequestHead<'_, '_>,
    kind: Kind,
    text: &mut ArrayVec<u8, ASK_LEN>,
) -> Option<Errand>
    ensures { option_map (λ errand. (errand, text.new.items)) result ≡ ask_by state.entry.now.name.items asked.now key.now (shown_request head.now) kind }
{
    if !write_text(state, head, key, &kind, text) {
        return None;
    }
    let is_identity = asks_only_identity(&kind, head);
    Some(Errand {
        kind,
        place: *key.place(),
        is_moved: false,
        is_asked_once: asked.is_asked_once,
        asks_head: false,
        is_safe: asked.is_safe,
        binds_connection: asked.binds_connection,
        accepts_only_identity: is_identity,
        allows_guess: allows_guess(key.text(), &head.fields),
        asked: 0,
        body_left: 0,
        requested: 0,
        body: Body::Pending,
    })
}

/// Whether no wish for a coding goes with what is asked: the client has none, or bytes of a version
/// are asked for.
fn asks_only_identity(kind: &Kind, head: &RequestHead<'_, '_>) -> bool
    ensures { result ≡ (asks_hole kind.now || accepts_only_identity (shown_request head.now).fields) }
{
    matches!(kind, Kind::Hole(_, _, _)) || accepts_only_identity(&head.fields)
}

// ---- a reply by the row

fn follow_row(state: &mut State, i: usize, decision: Decision, span: (u64, u64))
    ensures is { parts state.new ≡ followed_at i decision span (parts state.old) }
    ensures numbers { numbers_of state.new.seats.items ≡ numbers_of state.old.seats.items }
    ensures rest { KeepsRest state.old state.new }
{
    let Some(id) = row_at(state, i) else {
        return;
    };
    begin_interim(state, i);
    follow(&mut state.cache, id);
    answer(state, i, decision, Some(id), span);
    leave_useless(state, i);
}

fn relay(state: &mut State, i: usize)
    ensures is { parts state.new ≡ relayed i (parts state.old) }
    ensures numbers { numbers_of state.new.seats.items ≡ numbers_of state.old.seats.items }
    ensures rest { KeepsRest state.old state.new }
{
    begin_interim(state, i);
    answer(state, i, Decision::Relay, None, (0, 0));
}

/// In the place of what it followed.
fn answer(
    state: &mut State,
    i: usize,
    decision: Decision,
    source: Option<ObjectId>,
    span: (u64, u64),
)
    ensures is { parts state.new ≡ answered_at i decision source span (parts state.old) }
    ensures numbers { numbers_of state.new.seats.items ≡ numbers_of state.old.seats.items }
    ensures rest { KeepsRest state.old state.new }
{
    state.leave_source(i);
    decide_at(state, i, decision, source, span);
}

#[tactic(auto, using(pp_state::proofs::PlacesLemmas::same_numbers))]
fn decide_at(
    state: &mut State,
    i: usize,
    decision: Decision,
    source: Option<ObjectId>,
    span: (u64, u64),
)
    ensures is { parts state.new ≡ on_seat i (answering decision source span) (parts state.old) }
    ensures numbers { numbers_of state.new.seats.items ≡ numbers_of state.old.seats.items }
    ensures rest { KeepsRest state.old state.new }
{
    if let Some(seat) = state.seats.get_mut(i) {
        seat.decide(decision, source, span);
    }
}

/// The request leaves an exchange that brings nothing of what its reply follows.
#[tactic(auto, unfolding(crate::specs::Deciding::left_useless))]
fn leave_useless(state: &mut State, i: usize)
    ensures is { parts state.new ≡ left_useless i (parts state.old) }
    ensures seats { state.new.seats ≡ state.old.seats }
    ensures rest { KeepsRest state.old state.new }
{
    let Some(e) = state.exchange_of(i) else {
        return;
    };
    if !is_served_by(state, i, e.number) {
        state.leave_exchange(i);
    }
}

/// The exchange brings something of what the client at this place still wants.
fn is_served_by(state: &State, i: usize, number: u64) -> bool
    ensures { result ≡ is_served_by i number (parts state.entry.now) }
{
    let Some(entry) = state.flow.entry(number) else {
        return false;
    };
    match state.next_at(i) {
        None => false,
        Some(next) => state.serves(entry, &next),
    }
}

/// Whether it asks an origin.
fn asks_origin(decision: Decision) -> bool
    ensures { result ≡ asks_origin decision }
{
    matches!(
        decision,
        Decision::Pass | Decision::Fetch | Decision::Validate
    )
}

fn is_pass(decision: Decision) -> bool
    ensures { result ≡ is_pass decision }
{
    matches!(decision, Decision::Pass)
}

fn aim_for(passes: bool) -> Aim
    ensures { result ≡ aim_for passes }
{
    if passes { Aim::Pass } else { Aim::Own }
}

/// A page, where a request, or what is none, waits for its reply.
fn give_page_to(seat: &mut Seat, alloc: Global, status: u16)
    ensures { IsPaged status seat.old seat.new }
{
    if may_answer(&seat.client) {
        seat.give_page(alloc, status);
    }
}

/// What an exchange asks for a request itself. One that is passed asks its body too.
fn of_request(asked: &Asked, body_left: u64, head: &RequestHead<'_, '_>, errand: Errand) -> Errand
    ensures { result ≡ of_request asked.now body_left (shown_request head.now) errand }
{
    let is_pass = errand.kind.is_pass();
    Errand {
        is_moved: errand.kind.is_range() && is_moved(head),
        asks_head: is_pass && asked.is_head,
        body_left: if is_pass { body_left } else { 0 },
        ..errand
    }
}

/// Ours: a range is asked for from the front of a chunk on.
fn is_moved(head: &RequestHead<'_, '_>) -> bool
    ensures { result ≡ is_moved_in (range_of (shown_request head.now).fields) }
{
    match read_range(&head.fields) {
        None | Some(Range::Last(_)) => false,
        Some(Range::Span(first, _) | Range::From(first)) => first % 4096 != 0,
    }
}

/// One client more reads from the instance.
#[tactic(auto, using(crate::proofs::DecidingLemmas::followed_is))]
fn follow(cache: &mut Cache, id: ObjectId)
    ensures { cache.new ≡ followed_more id cache.old }
{
    cache.follow(id);
}
