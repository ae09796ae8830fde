// Step 5: what followers ask for: bytes that are not there and do not come (RFC 7233, sections 3.2 and
// 4.3; ours: chunk by chunk).
ghost use Rattle.std.specs.Prelude.{◌≡◌, option_map, slice_get};
ghost use Rattle.pp_flow.specs.Changes.{entry_of, numbers};
ghost use Rattle.pp_state.specs.Asking.{brings_next, is_useless, is_wanted};
ghost use Rattle.pp_state.specs.Bringing.{need_of};
ghost use Rattle.pp_state.specs.Ends.{AreInOrder, AreSeated, KeepsRest, numbers_of, on_seat, parts};
ghost use Rattle.pp_take.specs.Filling.{filled, filled_for, filled_in, hole_ask_at, hole_asked, instance_of, span_asked};
ghost use Rattle.pp_take.specs.GivingUp.{all_given_up, given_up_if};
ghost use Rattle.pp_state.specs.Readers.{next_at};
ghost use Rattle.pp_seats.specs.declared.seat.Course.TheVariants.{AskTooLong};

use crate::deciding::{begin_exchange, errand_of};
use arrayvec::ArrayVec;
use pp_ask::ASK_LEN;
use pp_cache::CHUNK_LEN;
use pp_client::Current;
use pp_flow::{Aim, Entry, Errand, Kind};
use pp_objects::ObjectId;
use pp_plan::need;
use pp_seats::{Course, Next};
use pp_state::State;
use pp_valid::Version;

/// Each follower asks for what it lacks.
#[tactic(auto, using(crate::proofs::FillingLemmas::filled_next, crate::proofs::FillingLemmas::none_filled, crate::proofs::FillingLemmas::take_all))]
pub fn fill(state: &mut State)
    ensures is { parts state.new ≡ filled state.old.is_stopped state.old.name.items state.old.awake.items (parts state.old) }
    ensures numbers { numbers_of state.new.seats.items ≡ numbers_of state.old.seats.items }
    ensures rest { KeepsRest state.old state.new }
{
    if state.is_stopped {
        return;
    }
    for turn in 0..state.awake.len() {
        fill_in_turn(state, turn);
    }
}

fn fill_in_turn(state: &mut State, turn: usize)
    ensures is { parts state.new ≡ filled_in state.old.name.items (slice_get state.old.awake.items turn) (parts state.old) }
    ensures numbers { numbers_of state.new.seats.items ≡ numbers_of state.old.seats.items }
    ensures rest { KeepsRest state.old state.new }
{
    if let Some(i) = state.awake_at(turn) {
        fill_for(state, i);
    }
}

#[tactic(auto, unfolding(crate::specs::Filling::filled_for))]
fn fill_for(state: &mut State, i: usize)
    ensures is { parts state.new ≡ filled_for state.old.name.items i (parts state.old) }
    ensures numbers { numbers_of state.new.seats.items ≡ numbers_of state.old.seats.items }
    ensures rest { KeepsRest state.old state.new }
{
    let Some(seat) = state.seats.get(i) else {
        return;
    };
    if !seat.is_trying() {
        return;
    }
    let Some(next) = seat.next() else {
        return;
    };
    let Some(span) = need_of(state, &next) else {
        return;
    };
    ask_for(state, i, &next, span);
}

/// Of a version that was retired nothing is asked.
fn need_of(state: &State, next: &Next) -> Option<(u64, u64)>
    ensures { result ≡ need_of next.now state.entry.now.cache state.entry.now.flow }
{
    if state.cache.is_retired(next.source) || next.at >= next.to {
        return None;
    }
    if state.is_provided(next) {
        return None;
    }
    let front = next.at / CHUNK_LEN * CHUNK_LEN;
    let hole = state.cache.next_hole(next.source, front);
    need(next.at, next.to, hole)
}

#[tactic(auto, using(crate::proofs::FillingLemmas::span_full, crate::proofs::FillingLemmas::span_gone, crate::proofs::FillingLemmas::span_there))]
fn ask_for(state: &mut State, i: usize, next: &Next, span: (u64, u64))
    ensures is { parts state.new ≡ span_asked state.old.name.items i next.now span (parts state.old) }
    ensures numbers { numbers_of state.new.seats.items ≡ numbers_of state.old.seats.items }
    ensures rest { KeepsRest state.old state.new }
{
    if !state.may_ask() {
        return;
    }
    let Some(version) = version_of(state, next.source) else {
        return;
    };
    ask_hole(state, i, &version, span);
}

/// The version of an instance.
#[tactic(auto, using(crate::proofs::FillingLemmas::version_gone, crate::proofs::FillingLemmas::version_shown))]
fn version_of(state: &State, id: ObjectId) -> Option<Version>
    ensures { result ≡ option_map (λ x. x.version) (instance_of id state.entry.now.cache) }
{
    let row = state.cache.row(id)?;
    Some(*row.version)
}

/// An exchange asks for a hole of that version, where its text fits.
#[tactic(auto, unfolding(crate::specs::Filling::hole_asked))]
fn ask_hole(state: &mut State, i: usize, version: &Version, span: (u64, u64))
    ensures is { parts state.new ≡ hole_asked i version.now span (hole_ask_at state.old.name.items i version.now span (parts state.old)) (parts state.old) }
    ensures numbers { numbers_of state.new.seats.items ≡ numbers_of state.old.seats.items }
    ensures rest { KeepsRest state.old state.new }
{
    let mut text = ArrayVec::new();
    match hole_errand(state, i, version, span, &mut text) {
        None => give_up(state, i),
        Some(errand) => {
            let aim = Aim::Hole(*version, span.0, span.1);
            begin_exchange(state, i, aim, &errand, &text);
        }
    }
}

/// What the client at this place would ask is too long.
#[tactic(auto, using(pp_state::proofs::PlacesLemmas::same_numbers))]
fn give_up(state: &mut State, i: usize)
    ensures is { parts state.new ≡ on_seat i (λ seat. record seat { course = AskTooLong }) (parts state.old) }
    ensures numbers { numbers_of state.new.seats.items ≡ numbers_of state.old.seats.items }
    ensures rest { KeepsRest state.old state.new }
{
    if let Some(seat) = state.seats.get_mut(i) {
        seat.course = Course::AskTooLong;
    }
}

/// Writes the text. None where it does not fit.
fn hole_errand(
    state: &State,
    i: usize,
    version: &Version,
    span: (u64, u64),
    text: &mut ArrayVec<u8, ASK_LEN>,
) -> Option<Errand>
    ensures { option_map (λ errand. (errand, text.new.items)) result ≡ hole_ask_at state.entry.now.name.items i version.now span (parts state.entry.now) }
{
    let seat = state.seats.get(i)?;
    let asked = seat.front.asked()?;
    let key = asked.key.as_ref()?;
    let Current::Request(head, _) = seat.client.current() else {
        return None;
    };
    let kind = Kind::Hole(span.0, span.1.saturating_sub(1), version.tag);
    errand_of(state, asked, key, &head, kind, text)
}

/// An ask without a place that no longer brings what its own client wants is given up.
pub fn give_up_asks(state: &mut State)
    ensures is { AreSeated state.old → AreInOrder (numbers state.old.flow.waiting) → parts state.new ≡ all_given_up (numbers state.old.flow.waiting) (parts state.old) }
    ensures numbers { numbers_of state.new.seats.items ≡ numbers_of state.old.seats.items }
    ensures astray { state.new.is_astray ≡ state.old.is_astray }
    ensures rest { KeepsRest state.old state.new }
{
    let mut after: Option<u64> = None;
    for _ask in 0..state.flow.len() {
        let Some(number) = state.flow.waiting(after) else {
            break;
        };
        give_up_ask(state, number);
        after = Some(number);
    }
}

fn give_up_ask(state: &mut State, number: u64)
    ensures is { AreSeated state.old → parts state.new ≡ given_up_if number (parts state.old) }
    ensures numbers { numbers_of state.new.seats.items ≡ numbers_of state.old.seats.items }
    ensures astray { state.new.is_astray ≡ state.old.is_astray }
    ensures rest { KeepsRest state.old state.new }
{
    if is_useless(state, number) {
        state.end(number);
    }
}

fn is_useless(state: &State, number: u64) -> bool
    ensures { AreSeated state.entry.now → result ≡ is_useless state.entry.now.cache state.entry.now.seats.items (entry_of number state.entry.now.flow) }
{
    match state.flow.entry(number) {
        None => false,
        Some(entry) => {
            matches!(entry.exchange.aim, Aim::Hole(_, _, _)) && !is_wanted(state, entry)
        }
    }
}

/// The exchange brings the next byte of its own client.
fn is_wanted(state: &State, entry: &Entry) -> bool
    ensures { AreSeated state.entry.now → result ≡ is_wanted state.entry.now.cache state.entry.now.seats.items entry.now }
{
    match state.seat_for(&entry.exchange) {
        None => false,
        Some(i) => brings_next(state, entry, i),
    }
}

/// It brings the next byte of the client at this place.
fn brings_next(state: &State, entry: &Entry, i: usize) -> bool
    ensures { result ≡ brings_next state.entry.now.cache entry.now (next_at state.entry.now.seats.items i) }
{
    match state.next_at(i) {
        None => false,
        Some(next) => state.brings(entry, &next),
    }
}
