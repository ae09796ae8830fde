// Step 3: what stands no more is taken off the disk, and what is whole is kept there.
ghost use Rattle.std.specs.Prelude.{◌≡◌, ◌≤◌, length, option_map, true};
ghost use Rattle.pp_desk.specs.Anything.{anything};
ghost use Rattle.pp_keeping.specs.Keeping.{goes_on, keeping, with_memory, with_outcome, GrownNext, KeepsAll, KeepsRun, Repeats, RepeatsOn, TakesNext};
ghost use Rattle.pp_keeping.specs.Kept.{key_under, outside, unkept, unkept_of, with_room, TakesAway, TakesKey};
ghost use Rattle.pp_links.specs.Links.{IsLinked};
ghost use Rattle.pp_shelf.specs.Steady.{GrowsSteadily};
ghost use Rattle.pp_store.specs.Held.{Holds};
ghost use Rattle.pp_world.specs.Log.{Told};

use crate::disk::withdraw;
use crate::run::{Outcome, keep_next};
use arrayvec::ArrayVec;
use pp_cache::Cache;
use pp_desk::Desk;
use pp_links::Links;
use pp_objects::ObjectId;
use pp_shelf::Shelf;
use pp_state::State;
use pp_target::KEY_ROOM;
use pp_world::{Name, Note, World};

/// One more than the draft of a row and the runs of the longest body.
const RUNS: u32 = 16_386;

/// One more than the instances that grow in one turn.
const GROWN: u32 = 17;

/// What stands no more is taken away, and what came in this turn is kept as far as it is whole.
#[tactic(auto, using(pp_shelf::proofs::SteadyLemmas::steady_then))]
pub fn keep<W: World>(desk: &mut Desk, links: &Links, shelf: &mut Shelf, world: &mut W)
    requires linked { IsLinked (W.log world.old) (W.top world.old) links.now }
    requires holds { Told (W.log world.old) (Holds anything shelf.old) }
    ensures linked { IsLinked (W.log world.new) (W.top world.new) links.now }
    ensures holds { Told (W.log world.new) (Holds anything shelf.new) }
    ensures steady { GrowsSteadily (W.log world.old) (W.log world.new) }
    ensures is { KeepsAll (length desk.old.file.items) (keeping desk.old.state shelf.old (W.log world.old) (W.faults world.old)) (keeping desk.new.state shelf.new (W.log world.new) (W.faults world.new)) }
    ensures rest { record desk.new { state = record desk.new.state { cache = desk.old.state.cache; has_lost_draft = desk.old.state.has_lost_draft; is_astray = desk.old.state.is_astray }; file = desk.old.file } ≡ desk.old }
    ensures long { length desk.new.file.items ≡ length desk.old.file.items }
    ensures top { W.top world.new ≡ W.top world.old }
    ensures faults { W.faults world.old ≤ W.faults world.new }
{
    take_names(desk, links, shelf, world);
    keep_rows(desk, links, shelf, world);
}

// ---- what stands no more

/// What stands no more is taken away.
#[tactic(auto, using(pp_shelf::proofs::SteadyLemmas::steady_then, pp_shelf::proofs::SteadyLemmas::steady_none))]
fn take_names<W: World>(desk: &mut Desk, links: &Links, shelf: &mut Shelf, world: &mut W)
    requires linked { IsLinked (W.log world.old) (W.top world.old) links.now }
    requires holds { Told (W.log world.old) (Holds anything shelf.old) }
    ensures linked { IsLinked (W.log world.new) (W.top world.new) links.now }
    ensures holds { Told (W.log world.new) (Holds anything shelf.new) }
    ensures steady { GrowsSteadily (W.log world.old) (W.log world.new) }
    ensures is { Repeats TakesNext (length desk.old.state.cache.outdated) true (keeping desk.old.state shelf.old (W.log world.old) (W.faults world.old)) (keeping desk.new.state shelf.new (W.log world.new) (W.faults world.new)) }
    ensures rest { record desk.new { state = record desk.new.state { cache = desk.old.state.cache } } ≡ desk.old }
    ensures top { W.top world.new ≡ W.top world.old }
    ensures faults { W.faults world.old ≤ W.faults world.new }
{
    let mut goes = true;
    for _name in 0..desk.state.cache.outdated() {
        if !goes {
            break;
        }
        goes = take_next(desk, links, shelf, world);
    }
}

/// The last of the names is forgotten, and its entry taken away. False where there is none.
#[tactic(auto, using(pp_shelf::proofs::SteadyLemmas::steady_none))]
fn take_next<W: World>(desk: &mut Desk, links: &Links, shelf: &mut Shelf, world: &mut W) -> bool
    requires linked { IsLinked (W.log world.old) (W.top world.old) links.now }
    requires holds { Told (W.log world.old) (Holds anything shelf.old) }
    ensures linked { IsLinked (W.log world.new) (W.top world.new) links.now }
    ensures holds { Told (W.log world.new) (Holds anything shelf.new) }
    ensures steady { GrowsSteadily (W.log world.old) (W.log world.new) }
    ensures is { TakesNext (keeping desk.old.state shelf.old (W.log world.old) (W.faults world.old)) (keeping desk.new.state shelf.new (W.log world.new) (W.faults world.new)) result }
    ensures rest { record desk.new { state = record desk.new.state { cache = desk.old.state.cache } } ≡ desk.old }
    ensures top { W.top world.new ≡ W.top world.old }
    ensures faults { W.faults world.old ≤ W.faults world.new }
{
    let Some(name) = desk.state.cache.next_outdated() else {
        return false;
    };
    take_away(desk, links, shelf, world, &name);
    true
}

/// The entry under this name is noted as gone, and taken away. It may be of a row that stands: another key took its name.
#[tactic(auto, using(pp_shelf::proofs::SteadyLemmas::steady_none))]
fn take_away<W: World>(
    desk: &mut Desk,
    links: &Links,
    shelf: &mut Shelf,
    world: &mut W,
    name: &Name,
)
    requires linked { IsLinked (W.log world.old) (W.top world.old) links.now }
    requires holds { Told (W.log world.old) (Holds anything shelf.old) }
    ensures linked { IsLinked (W.log world.new) (W.top world.new) links.now }
    ensures holds { Told (W.log world.new) (Holds anything shelf.new) }
    ensures steady { GrowsSteadily (W.log world.old) (W.log world.new) }
    ensures is { TakesAway (key_under name.now shelf.old) (outside shelf.old (W.log world.old) (W.faults world.old)) (outside shelf.new (W.log world.new) (W.faults world.new)) }
    ensures memory { desk.new ≡ record desk.old { state = with_memory (unkept_of (key_under name.now shelf.old) desk.old.state.cache) desk.old.state } }
    ensures top { W.top world.new ≡ W.top world.old }
    ensures faults { W.faults world.old ≤ W.faults world.new }
{
    if let Some(key) = key_under(shelf, name) {
        take_key_away(links, shelf, world, key.as_slice());
        note_gone(&mut desk.state.cache, key.as_slice());
    }
}

/// The key of the entry that is kept under this name.
fn key_under(shelf: &Shelf, name: &Name) -> Option<ArrayVec<u8, KEY_ROOM>>
    ensures { option_map (λ key. key.items) result ≡ key_under name.now shelf.now }
{
    let view = shelf.under(name)?;
    Some(with_room(view.key))
}

fn with_room(key: &[u8]) -> ArrayVec<u8, KEY_ROOM>
    ensures { result.items ≡ with_room key.now }
{
    let mut copy = ArrayVec::new();
    let _ = copy.try_extend_from_slice(key);
    copy
}

/// The entry of this key is noted as gone, and taken off the disk.
#[tactic(auto, using(pp_desk::proofs::DiskLemmas::holds_quietly))]
fn take_key_away<W: World>(links: &Links, shelf: &mut Shelf, world: &mut W, key: &[u8])
    requires linked { IsLinked (W.log world.old) (W.top world.old) links.now }
    requires holds { Told (W.log world.old) (Holds anything shelf.old) }
    ensures linked { IsLinked (W.log world.new) (W.top world.new) links.now }
    ensures holds { Told (W.log world.new) (Holds anything shelf.new) }
    ensures steady { GrowsSteadily (W.log world.old) (W.log world.new) }
    ensures is { TakesKey key.now (outside shelf.old (W.log world.old) (W.faults world.old)) (outside shelf.new (W.log world.new) (W.faults world.new)) }
    ensures top { W.top world.new ≡ W.top world.old }
    ensures faults { W.faults world.old ≤ W.faults world.new }
{
    links.note(world, &Note::Gone(key));
    let _ = withdraw(links, shelf, world, key);
}

/// Nothing is kept of the row of this key.
fn note_gone(cache: &mut Cache, key: &[u8])
    ensures { cache.new ≡ unkept key.now cache.old }
{
    if let Some(id) = cache.current(key) {
        cache.keep_to(id, 0);
    }
}

// ---- what came

/// What came in this turn is kept as far as it is whole. Where there is more than there can be, this life goes astray.
#[tactic(auto, using(pp_shelf::proofs::SteadyLemmas::steady_then, pp_shelf::proofs::SteadyLemmas::steady_none))]
fn keep_rows<W: World>(desk: &mut Desk, links: &Links, shelf: &mut Shelf, world: &mut W)
    requires linked { IsLinked (W.log world.old) (W.top world.old) links.now }
    requires holds { Told (W.log world.old) (Holds anything shelf.old) }
    ensures linked { IsLinked (W.log world.new) (W.top world.new) links.now }
    ensures holds { Told (W.log world.new) (Holds anything shelf.new) }
    ensures steady { GrowsSteadily (W.log world.old) (W.log world.new) }
    ensures is { RepeatsOn (GrownNext (length desk.old.file.items)) 17 true (keeping desk.old.state shelf.old (W.log world.old) (W.faults world.old)) (keeping desk.new.state shelf.new (W.log world.new) (W.faults world.new)) }
    ensures rest { record desk.new { state = record desk.new.state { cache = desk.old.state.cache; has_lost_draft = desk.old.state.has_lost_draft; is_astray = desk.old.state.is_astray }; file = desk.old.file } ≡ desk.old }
    ensures long { length desk.new.file.items ≡ length desk.old.file.items }
    ensures top { W.top world.new ≡ W.top world.old }
    ensures faults { W.faults world.old ≤ W.faults world.new }
{
    let mut goes = true;
    for _row in 0..GROWN {
        if !goes {
            return;
        }
        goes = keep_grown(desk, links, shelf, world);
    }
    desk.state.note_more(goes);
}

/// The last of the instances that grew is forgotten, and kept as far as it is whole. False where there is none.
#[tactic(auto, using(pp_shelf::proofs::SteadyLemmas::steady_none))]
fn keep_grown<W: World>(desk: &mut Desk, links: &Links, shelf: &mut Shelf, world: &mut W) -> bool
    requires linked { IsLinked (W.log world.old) (W.top world.old) links.now }
    requires holds { Told (W.log world.old) (Holds anything shelf.old) }
    ensures linked { IsLinked (W.log world.new) (W.top world.new) links.now }
    ensures holds { Told (W.log world.new) (Holds anything shelf.new) }
    ensures steady { GrowsSteadily (W.log world.old) (W.log world.new) }
    ensures is { GrownNext (length desk.old.file.items) (keeping desk.old.state shelf.old (W.log world.old) (W.faults world.old)) (keeping desk.new.state shelf.new (W.log world.new) (W.faults world.new)) result }
    ensures rest { record desk.new { state = record desk.new.state { cache = desk.old.state.cache; has_lost_draft = desk.old.state.has_lost_draft; is_astray = desk.old.state.is_astray }; file = desk.old.file } ≡ desk.old }
    ensures long { length desk.new.file.items ≡ length desk.old.file.items }
    ensures top { W.top world.new ≡ W.top world.old }
    ensures faults { W.faults world.old ≤ W.faults world.new }
{
    let Some(id) = desk.state.cache.next_grown() else {
        return false;
    };
    keep_runs(desk, links, shelf, world, id);
    true
}

/// Keeps an instance run for run, as far as it is whole. Where it has more runs than there can be, this life goes astray.
#[tactic(auto, using(pp_shelf::proofs::SteadyLemmas::steady_then, pp_shelf::proofs::SteadyLemmas::steady_none))]
fn keep_runs<W: World>(
    desk: &mut Desk,
    links: &Links,
    shelf: &mut Shelf,
    world: &mut W,
    id: ObjectId,
)
    requires linked { IsLinked (W.log world.old) (W.top world.old) links.now }
    requires holds { Told (W.log world.old) (Holds anything shelf.old) }
    ensures linked { IsLinked (W.log world.new) (W.top world.new) links.now }
    ensures holds { Told (W.log world.new) (Holds anything shelf.new) }
    ensures steady { GrowsSteadily (W.log world.old) (W.log world.new) }
    ensures is { RepeatsOn (KeepsRun id (length desk.old.file.items)) 16386 true (keeping desk.old.state shelf.old (W.log world.old) (W.faults world.old)) (keeping desk.new.state shelf.new (W.log world.new) (W.faults world.new)) }
    ensures rest { record desk.new { state = record desk.new.state { cache = desk.old.state.cache; has_lost_draft = desk.old.state.has_lost_draft; is_astray = desk.old.state.is_astray }; file = desk.old.file } ≡ desk.old }
    ensures long { length desk.new.file.items ≡ length desk.old.file.items }
    ensures top { W.top world.new ≡ W.top world.old }
    ensures faults { W.faults world.old ≤ W.faults world.new }
{
    let mut goes = true;
    for _run in 0..RUNS {
        if !goes {
            return;
        }
        goes = keep_run(desk, links, shelf, world, id);
    }
    desk.state.note_more(goes);
}

/// Keeps one run of an instance more. Whether another may follow.
fn keep_run<W: World>(
    desk: &mut Desk,
    links: &Links,
    shelf: &mut Shelf,
    world: &mut W,
    id: ObjectId,
) -> bool
    requires linked { IsLinked (W.log world.old) (W.top world.old) links.now }
    requires holds { Told (W.log world.old) (Holds anything shelf.old) }
    ensures linked { IsLinked (W.log world.new) (W.top world.new) links.now }
    ensures holds { Told (W.log world.new) (Holds anything shelf.new) }
    ensures steady { GrowsSteadily (W.log world.old) (W.log world.new) }
    ensures is { KeepsRun id (length desk.old.file.items) (keeping desk.old.state shelf.old (W.log world.old) (W.faults world.old)) (keeping desk.new.state shelf.new (W.log world.new) (W.faults world.new)) result }
    ensures rest { record desk.new { state = record desk.new.state { cache = desk.old.state.cache; has_lost_draft = desk.old.state.has_lost_draft }; file = desk.old.file } ≡ desk.old }
    ensures long { length desk.new.file.items ≡ length desk.old.file.items }
    ensures top { W.top world.new ≡ W.top world.old }
    ensures faults { W.faults world.old ≤ W.faults world.new }
{
    let outcome = keep_next(&desk.state, id, links, shelf, world, &mut desk.file);
    take_outcome(&mut desk.state, id, outcome)
}

/// What memory knows of it then, and whether another run may follow.
fn take_outcome(state: &mut State, id: ObjectId, outcome: Option<Outcome>) -> bool
    ensures goes { result ≡ goes_on outcome }
    ensures is { state.new ≡ with_outcome id outcome state.old }
    ensures rest { record state.new { cache = state.old.cache; has_lost_draft = state.old.has_lost_draft } ≡ state.old }
{
    match outcome {
        None => false,
        Some(Outcome::To(extent)) => {
            state.cache.keep_to(id, extent);
            true
        }
        Some(Outcome::LostDraft) => {
            state.has_lost_draft = true;
            false
        }
    }
}
