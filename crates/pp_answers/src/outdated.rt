// Rows that a passed response outdates: what an unsafe method changed, and what GET and HEAD show (RFC 2616,
// sections 9.4 and 13.10).
ghost use Rattle.std.specs.Prelude.{◌≡◌, Bool, false, take};
ghost use Rattle.pp_client.specs.Requests.{current_of};
ghost use Rattle.pp_flow.specs.Changes.{Exchanges};
ghost use Rattle.pp_head.specs.Shown.{shown_response};
ghost use Rattle.pp_state.specs.Ends.{AreSeated, KeepsRest, cleared_key, cleared_of, numbers_of, parts};
ghost use Rattle.pp_state.specs.Keys.{key_of};
ghost use Rattle.pp_answers.specs.ThroughHeads.{ClearsEach, ClearsNamed, ClearsOutdated, InvalidatesIf, InvalidatesRows, disproved, disproves, gets, invalidates, is_disproved, is_get_in, is_other_length, named_as, places_named, reads, shows_other};

use arrayvec::ArrayVec;
use pp_cache::{Cache, Noted, is_spelled_at, write_named};
use pp_client::Current;
use pp_flow::{Errand, Exchange};
use pp_head::ResponseHead;
use pp_seats::Seat;
use pp_state::{State, clear_key};
use pp_text::{FieldValues, OutOfMemory};
use pp_valid::{Version, body_length, names_other_tag};
use std::alloc::Global;

/// "POST, PUT, DELETE": what they change is not known any more, nor what the response names beside it.
pub(crate) fn clear_outdated(
    state: &mut State,
    e: &Exchange,
    errand: &Errand,
    head: &ResponseHead<'_, '_>,
)
    ensures is { AreSeated state.old → ClearsOutdated e.now errand.now (shown_response head.now) (parts state.old) (parts state.new) }
    ensures numbers { numbers_of state.new.seats.items ≡ numbers_of state.old.seats.items }
    ensures rest { KeepsRest state.old state.new }
{
    invalidate(state, e, errand, head);
    clear_disproved(state, e, errand, head);
}

// ---- what an unsafe method changed

fn invalidate(state: &mut State, e: &Exchange, errand: &Errand, head: &ResponseHead<'_, '_>)
    ensures is { InvalidatesIf (invalidates errand.now.is_safe (shown_response head.now)) (key_of e.now.number state.old.flow) errand.now.place.path (shown_response head.now) (parts state.old) (parts state.new) }
    ensures numbers { numbers_of state.new.seats.items ≡ numbers_of state.old.seats.items }
    ensures rest { KeepsRest state.old state.new }
{
    if invalidates(errand.is_safe, head) {
        clear_rows(state, e.number, errand.place.path, head);
    }
}

/// The row of the exchange's key, whose site ends there, and those of the places that the response names.
fn clear_rows(state: &mut State, number: u64, path: usize, head: &ResponseHead<'_, '_>)
    ensures is { InvalidatesRows (key_of number state.old.flow) path (shown_response head.now) (parts state.old) (parts state.new) }
    ensures numbers { numbers_of state.new.seats.items ≡ numbers_of state.old.seats.items }
    ensures rest { KeepsRest state.old state.new }
{
    if let Some(key) = state.flow.key(number) {
        clear_all(
            state.alloc,
            &mut state.cache,
            &mut state.refused,
            &mut state.is_astray,
            &mut state.seats,
            key,
            path,
            head,
        );
    }
}

// ---- what GET and HEAD show

fn clear_disproved(state: &mut State, e: &Exchange, errand: &Errand, head: &ResponseHead<'_, '_>)
    ensures is { AreSeated state.old → parts state.new ≡ disproved e.now errand.now (shown_response head.now) (parts state.old) }
    ensures numbers { numbers_of state.new.seats.items ≡ numbers_of state.old.seats.items }
    ensures rest { KeepsRest state.old state.new }
{
    if is_disproved(state, e, errand, head) {
        state.clear_row(e);
    }
}

/// The response shows that the row of its key is not what its origin has.
fn is_disproved(state: &State, e: &Exchange, errand: &Errand, head: &ResponseHead<'_, '_>) -> bool
    ensures { AreSeated state.entry.now → result ≡ is_disproved e.now errand.now (shown_response head.now) (parts state.entry.now) }
{
    match state.known_version(e) {
        None => false,
        Some(version) => disproves(head, &version) && reads(state, e, errand),
    }
}

/// GET or HEAD was asked. An ask that goes alone is not there without its client.
fn reads(state: &State, e: &Exchange, errand: &Errand) -> bool
    ensures { AreSeated state.entry.now → result ≡ reads e.now errand.now (parts state.entry.now) }
{
    errand.asks_head || !errand.goes_alone() || gets(state, e)
}

fn gets(state: &State, e: &Exchange) -> bool
    ensures { AreSeated state.entry.now → result ≡ gets e.now (parts state.entry.now) }
{
    match state.seat_for(e) {
        None => false,
        Some(i) => is_get(&state.seats[i]),
    }
}

fn is_get(seat: &Seat) -> bool
    ensures { result ≡ is_get_in (current_of seat.now.client.heard) }
{
    match seat.client.current() {
        Current::Request(asked, _) => asked.method == b"GET".as_slice(),
        Current::Nothing | Current::More | Current::Refuse(_) => false,
    }
}

/// The row of this key, and those of the places of its site that the response names.
#[tactic(auto, using(pp_state::proofs::SeatsLemmas::anew_numbers))]
fn clear_all(
    alloc: Global,
    cache: &mut Cache,
    refused: &mut Noted,
    is_astray: &mut bool,
    seats: &mut [Seat],
    key: &[u8],
    path: usize,
    head: &ResponseHead<'_, '_>,
)
    ensures is { (flow : Exchanges) → ClearsEach (take path key.now) (places_named (shown_response head.now)) (cleared_key key.now (record { seats = seats.old; flow = flow; cache = cache.old; refused = refused.old; is_astray = is_astray.old })) (record { seats = seats.new; flow = flow; cache = cache.new; refused = refused.new; is_astray = is_astray.new }) }
    ensures numbers { numbers_of seats.new ≡ numbers_of seats.old }
{
    clear_key(cache, refused, seats, key);
    let site = &key[..path.min(key.len())];
    let location = head.fields.values(b"location");
    clear_places(alloc, cache, refused, is_astray, seats, site, location);
    let content = head.fields.values(b"content-location");
    clear_places(alloc, cache, refused, is_astray, seats, site, content);
}

/// The rows of the places of a site that these texts name.
fn clear_places(
    alloc: Global,
    cache: &mut Cache,
    refused: &mut Noted,
    is_astray: &mut bool,
    seats: &mut [Seat],
    site: &[u8],
    mut texts: FieldValues<'_, '_, '_>,
)
    ensures is { (flow : Exchanges) → ClearsEach site.now texts.entry (record { seats = seats.old; flow = flow; cache = cache.old; refused = refused.old; is_astray = is_astray.old }) (record { seats = seats.new; flow = flow; cache = cache.new; refused = refused.new; is_astray = is_astray.new }) }
    ensures numbers { numbers_of seats.new ≡ numbers_of seats.old }
{
    while let Some(text) = texts.next() {
        clear_place(alloc, cache, refused, is_astray, seats, site, text);
    }
}

/// Ours: a URL that there is no memory to read counts as it is spelled, so that most rows are cleared all the same, and the
/// response is passed; but this life goes astray.
#[tactic(auto, using(pp_state::proofs::SeatsLemmas::anew_numbers))]
fn clear_place(
    alloc: Global,
    cache: &mut Cache,
    refused: &mut Noted,
    is_astray: &mut bool,
    seats: &mut [Seat],
    site: &[u8],
    text: &[u8],
)
    ensures is { (flow : Exchanges) → ClearsNamed site.now text.now (record { seats = seats.old; flow = flow; cache = cache.old; refused = refused.old; is_astray = is_astray.old }) (record { seats = seats.new; flow = flow; cache = cache.new; refused = refused.new; is_astray = is_astray.new }) }
    ensures numbers { numbers_of seats.new ≡ numbers_of seats.old }
{
    let mut named = ArrayVec::new();
    match write_named(alloc, site, text, &mut named) {
        Ok(true) => clear_key(cache, refused, seats, named.as_slice()),
        Ok(false) => {}
        Err(OutOfMemory) => {
            clear_spelled(cache, refused, seats, site, text);
            *is_astray = true;
        }
    }
}

#[tactic(auto, using(pp_state::proofs::SeatsLemmas::anew_numbers))]
fn clear_spelled(
    cache: &mut Cache,
    refused: &mut Noted,
    seats: &mut [Seat],
    site: &[u8],
    text: &[u8],
)
    ensures is { (flow : Exchanges) (is_astray : Bool) → record { seats = seats.new; flow = flow; cache = cache.new; refused = refused.new; is_astray = is_astray } ≡ cleared_of (named_as false site.now text.now) (record { seats = seats.old; flow = flow; cache = cache.old; refused = refused.old; is_astray = is_astray }) }
    ensures numbers { numbers_of seats.new ≡ numbers_of seats.old }
{
    if is_spelled_at(site, text) {
        clear_key(cache, refused, seats, text);
    }
}

fn invalidates(is_safe: bool, head: &ResponseHead<'_, '_>) -> bool
    ensures { result ≡ invalidates is_safe (shown_response head.now) }
{
    let is_done = 200 <= head.status && head.status < 400;
    !is_safe && is_done
}

/// Nothing is there any more, or something else.
fn disproves(head: &ResponseHead<'_, '_>, version: &Version) -> bool
    ensures { result ≡ disproves (shown_response head.now) version.now }
{
    match head.status {
        404 | 410 => true,
        200 => shows_other(head, version),
        _ => false,
    }
}

/// "if the new field values indicate that the cached entity differs from the current entity" (section 9.4)
fn shows_other(head: &ResponseHead<'_, '_>, version: &Version) -> bool
    ensures { result ≡ shows_other (shown_response head.now) version.now }
{
    names_other_tag(&head.fields, &version.tag)
        || is_other_length(version, body_length(&head.fields))
}

fn is_other_length(version: &Version, length: Option<u64>) -> bool
    ensures { result ≡ is_other_length version.now length }
{
    match length {
        None => false,
        Some(length) => length != version.length,
    }
}
