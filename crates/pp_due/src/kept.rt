// Rows that come from the disk, and bytes that stand there alone.
ghost use Rattle.std.specs.Prelude.{◌≡◌, ◌||◌, not, None, true, is_none, is_ok, option_map, slice_get, OnErr, OnOk};
ghost use Rattle.pp_client.specs.Requests.{current_of};
ghost use Rattle.pp_due.specs.Entering.{HasRow, HasRowFor, asks_by_kept, decide_by_kept, is_below, is_due_at, is_due_to, is_to_decide, enters_at, may_share_first, plain_key, refused_at, with_room_if_over};
ghost use Rattle.pp_seats.specs.Dues.{begun_in};
ghost use Rattle.pp_seats.specs.Heads.{asked_in};
ghost use Rattle.std.specs.Option.{option_and_then};
ghost use Rattle.pp_state.specs.Astray.{gone_astray};
ghost use Rattle.pp_state.specs.Keys.{key_of};
ghost use Rattle.pp_head.specs.Shown.{shown_request};
ghost use Rattle.pp_store.specs.Views.{shown};
ghost use Rattle.pp_due.specs.OnDisk.{IsBrought, kept_alone, next_on_disk};

use crate::due::{cut_of, has_decision};
use pp_cache::Cache;
use pp_client::Current;
use pp_decide::{if_fits, may_share, shared_ask};
use pp_head::RequestHead;
use pp_plan::{Begun, PlanRow, decide, span};
use pp_seats::{Brought, Key, Next, Seat, Stage};
use pp_shelf::Shelf;
use pp_state::State;
use pp_store::KeptView;
use pp_target::file_name;
use pp_text::OutOfMemory;
use pp_world::Decision;
use std::alloc::Global;

/// Where a decision is due to the client at this place, the kept row that its request names comes into memory: with each but one
/// for want of memory. Where memory is refused for it, the request is refused, and this life goes astray.
pub(crate) fn bring_row_of(state: &mut State, shelf: &Shelf, i: usize)
    ensures { HasRow shelf.now i state.old state.new }
{
    if !is_to_enter(state, i) {
        return;
    }
    let Some(seat) = state.seats.get(i) else {
        return;
    };
    let Some(key) = seat.front.key() else {
        return;
    };
    if bring(state.alloc, &mut state.cache, shelf, key.text()).is_err() {
        refuse_row(state, i);
    }
}

/// What is due to it is a decision, and not one for want of memory.
fn is_to_enter(state: &State, i: usize) -> bool
    ensures { result ≡ enters_at i state.entry.now }
{
    let Some(seat) = state.seats.get(i) else {
        return false;
    };
    let is_refused = matches!(seat.brought, Brought::Refused);
    cut_of(state, seat).is_none() && !is_refused
}

/// The same of the key of an exchange whose response came, with room for it. Where memory is refused for it, this life goes astray.
pub fn bring_row_for(state: &mut State, shelf: &Shelf, number: u64)
    ensures { HasRowFor shelf.now (key_of number state.old.flow) state.old state.new }
{
    let Some(key) = state.flow.key(number) else {
        return;
    };
    let is_brought = bring(state.alloc, &mut state.cache, shelf, key).is_ok();
    note_brought(&mut state.is_astray, is_brought);
    make_room_if_over(state);
}

fn note_brought(is_astray: &mut bool, is_brought: bool)
    ensures { is_astray.new ≡ (is_astray.old || not is_brought) }
{
    *is_astray = *is_astray || !is_brought;
}

/// There may be one row too many.
fn make_room_if_over(state: &mut State)
    ensures { state.new ≡ with_room_if_over state.old }
{
    if state.cache.is_over() {
        state.make_room_for_row();
    }
}

/// Memory was refused for the kept row of its key.
fn refuse_row(state: &mut State, i: usize)
    ensures seats { state.new.seats.items ≡ refused_at i state.old.seats.items }
    ensures rest { record state.new { seats = state.old.seats } ≡ gone_astray state.old }
{
    state.is_astray = true;
    if let Some(seat) = state.seats.get_mut(i) {
        seat.brought = Brought::Refused;
    }
}

/// A cut or a decision is due to the client at this place, by the kept row of its key where none is in memory.
pub(crate) fn is_due_at(state: &State, shelf: &Shelf, i: usize) -> bool
    ensures { result ≡ is_due_at shelf.now i state.entry.now }
{
    match state.seats.get(i) {
        None => false,
        Some(seat) => is_due_to(state, shelf, seat),
    }
}

fn is_due_to(state: &State, shelf: &Shelf, seat: &Seat) -> bool
    ensures { result ≡ is_due_to shelf.now state.entry.now seat.now }
{
    if seat.is_closing {
        return false;
    }
    let is_cut = cut_of(state, seat).is_some();
    if is_cut || state.is_stopped {
        return is_cut;
    }
    is_to_decide(state, shelf, seat)
}

/// A decision is due: one that waits for the answer to another's ask has none.
fn is_to_decide(state: &State, shelf: &Shelf, seat: &Seat) -> bool
    ensures { result ≡ is_to_decide shelf.now state.entry.now seat.now }
{
    if !may_share_first(state, seat) {
        return has_decision(state, seat);
    }
    let Some(key) = plain_key(seat) else {
        return has_decision(state, seat);
    };
    match kept_alone(&state.cache, shelf, key.text()) {
        None => has_decision(state, seat),
        Some(view) => !asks_by_kept(state, seat, key, view),
    }
}

/// It may wait for what is asked already.
fn may_share_first(state: &State, seat: &Seat) -> bool
    ensures { result ≡ may_share_first state.entry.now seat.now }
{
    let is_refused = matches!(seat.brought, Brought::Refused);
    let is_first = matches!(seat.stage, Stage::Undecided) && seat.waits_on.is_none();
    !is_refused && is_first && state.shares_fetches && shared_ask(state, seat).is_some()
}

/// The key of a request that is not refused for itself.
fn plain_key(seat: &Seat) -> Option<&Key>
    ensures { option_map (λ key. key.now) result ≡ plain_key (asked_in seat.now.front) }
{
    let asked = seat.front.asked()?;
    match asked.refusal {
        Some(_) => None,
        None => asked.key.as_ref(),
    }
}

/// By the kept row of its key it is to ask what another may have asked already.
fn asks_by_kept(state: &State, seat: &Seat, key: &Key, view: KeptView<'_>) -> bool
    ensures { result ≡ asks_by_kept state.entry.now seat.now key.now (shown view.entry) (current_of seat.now.client.heard) }
{
    let Current::Request(head, _) = seat.client.current() else {
        return false;
    };
    may_share(decide_by_kept(state, seat, &head, key, view))
}

/// What is decided by this kept row.
fn decide_by_kept(
    state: &State,
    seat: &Seat,
    head: &RequestHead<'_, '_>,
    key: &Key,
    view: KeptView<'_>,
) -> Decision
    ensures { result ≡ decide_by_kept state.entry.now seat.now key.now (shown view.entry) (shown_request head.now) }
{
    let plan = PlanRow {
        version: view.version,
        fields: view.fields,
        times: view.times,
        held: is_below(view.extent, span(head, view.version)),
    };
    let decision = decide(head, Some(&plan), begun_without_row(seat), state.now);
    if_fits(state, head, key, Some(*view.version), decision)
}

/// What its exchange brought, where its key has no row in memory.
fn begun_without_row(seat: &Seat) -> Begun
    ensures { result ≡ begun_in seat.now.brought None }
{
    match seat.brought {
        Brought::Awaited | Brought::Useless | Brought::Joins(_, _) | Brought::Refused => {
            Begun::Nothing
        }
        Brought::Passes(_) => Begun::Other,
        Brought::TooWide => Begun::Widened,
    }
}

/// The next byte of the client at this place, where it is on the disk alone and is said next.
pub fn next_to_load(state: &State, i: usize) -> Option<Next>
    ensures { result ≡ option_and_then (next_on_disk state.entry.now) (slice_get state.entry.now.seats.items i) }
{
    next_on_disk(state, state.seats.get(i)?)
}

/// The same of this client.
pub(crate) fn next_on_disk(state: &State, seat: &Seat) -> Option<Next>
    ensures { result ≡ next_on_disk state.entry.now seat.now }
{
    if !seat.is_at_body() {
        return None;
    }
    let next = seat.next()?;
    if next.at < state.cache.extent(next.source) && !state.cache.holds(next.source, next.at) {
        Some(next)
    } else {
        None
    }
}

/// Each offset of the half-open span is on the disk.
fn is_below(extent: u64, span: (u64, u64)) -> bool
    ensures { result ≡ is_below extent span }
{
    span.1 <= span.0 || span.1 <= extent
}

/// The row of a key comes into memory, where it is kept on the disk alone.
fn bring(alloc: Global, cache: &mut Cache, shelf: &Shelf, key: &[u8]) -> Result<(), OutOfMemory>
    ensures brought { OnOk result (IsBrought key.now (kept_alone key.now shelf.now cache.old) cache.old cache.new) }
    ensures refused { OnErr result (cache.new ≡ cache.old) }
    ensures none { is_none (kept_alone key.now shelf.now cache.old) ≡ true → is_ok result ≡ true }
{
    let Some(view) = kept_alone(cache, shelf, key) else {
        return Ok(());
    };
    cache.enter(
        alloc,
        key,
        view.version,
        &view.fields,
        view.times,
        view.extent,
    )?;
    cache.bounds();
    Ok(())
}

/// What is kept of a key that has no row in memory, as long as it stands for its row.
fn kept_alone<'a>(cache: &Cache, shelf: &'a Shelf, key: &[u8]) -> Option<KeptView<'a>>
    ensures { option_map shown result ≡ kept_alone key.now shelf.now cache.now }
{
    if cache.current(key).is_some() || cache.is_outdated(&file_name(key)) {
        return None;
    }
    shelf.kept(key)
}
