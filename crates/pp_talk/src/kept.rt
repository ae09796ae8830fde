// Chunks that come from the disk.
ghost use Rattle.std.specs.Prelude.{◌≡◌, ◌≤◌, ◌*◌, IfNone, IfOk, IfSome, is_some, length};
ghost use Rattle.pp_desk.specs.Anything.{anything};
ghost use Rattle.pp_links.specs.Links.{IsLinked};
ghost use Rattle.pp_links.specs.Quiet.{GrowsQuietly};
ghost use Rattle.pp_shelf.specs.Given.{keeps_byte};
ghost use Rattle.pp_shelf.specs.Steady.{GrowsSteadily};
ghost use Rattle.pp_state.specs.Bodies.{HasJoined, with_bytes};
ghost use Rattle.pp_state.specs.Ends.{AreSeated, numbers_of};
ghost use Rattle.pp_store.specs.Changes.{loaded_after};
ghost use Rattle.pp_store.specs.Held.{Holds};
ghost use Rattle.pp_store.specs.Kept.{kept_of, row_of};
ghost use Rattle.pp_store.specs.Loads.{GivesChunk, LoadCause, chunk_len, load_happenings};
ghost use Rattle.pp_talk.specs.Loading.{Loads, LoadsAndSays, LoadsNext, TakesChunk, chunk_at, chunk_notes};
ghost use Rattle.pp_target.specs.Name.{name_of};
ghost use Rattle.pp_world.specs.Log.{AppendsAll, Told};

use crate::hearing::say;
use pp_cache::{CHUNK_LEN, Cache};
use pp_desk::Desk;
use pp_due::next_to_load;
use pp_links::Links;
use pp_objects::{ObjectId, RowView};
use pp_seats::Next;
use pp_shelf::Shelf;
use pp_state::State;
use pp_store::LoadFault;
use pp_world::{Note, Wire, World};

/// Offers the client at this place what is there for it: where its next byte is on the disk alone, its chunk is read
/// before.
#[tactic(auto, using(pp_desk::proofs::DiskLemmas::holds_quietly))]
pub fn load_and_say<W: World>(
    desk: &mut Desk,
    links: &Links,
    shelf: &mut Shelf,
    world: &mut W,
    i: usize,
)
    requires linked { IsLinked (W.log world.old) (W.top world.old) links.now }
    requires holds { Told (W.log world.old) (Holds anything shelf.old) }
    ensures linked { IsLinked (W.log world.new) (W.top world.new) links.now }
    ensures holds { Told (W.log world.new) (Holds anything shelf.new) }
    ensures steady { GrowsSteadily (W.log world.old) (W.log world.new) }
    ensures is { AreSeated desk.old.state → LoadsAndSays i links.now shelf.old desk.old shelf.new desk.new (W.log world.old) (W.log world.new) (W.faults world.old) (W.faults world.new) }
    ensures numbers { numbers_of desk.new.state.seats.items ≡ numbers_of desk.old.state.seats.items }
    ensures top { W.top world.new ≡ W.top world.old }
    ensures faults { W.faults world.old ≤ W.faults world.new }
{
    load_next(desk, links, shelf, world, i);
    desk.state.cache.bounds();
    say(desk, links, world, i);
}

#[tactic(auto, using(pp_shelf::proofs::SteadyLemmas::steady_none))]
fn load_next<W: World>(desk: &mut Desk, links: &Links, shelf: &mut Shelf, world: &mut W, i: usize)
    requires linked { IsLinked (W.log world.old) (W.top world.old) links.now }
    requires holds { Told (W.log world.old) (Holds anything shelf.old) }
    ensures linked { IsLinked (W.log world.new) (W.top world.new) links.now }
    ensures holds { Told (W.log world.new) (Holds anything shelf.new) }
    ensures steady { GrowsSteadily (W.log world.old) (W.log world.new) }
    ensures is { LoadsNext i shelf.old desk.old.state shelf.new desk.new.state (W.log world.old) (W.log world.new) (W.faults world.old) (W.faults world.new) }
    ensures rest { record desk.new { state = record desk.new.state { cache = desk.old.state.cache; is_evicting = desk.old.state.is_evicting } } ≡ desk.old }
    ensures top { W.top world.new ≡ W.top world.old }
    ensures faults { W.faults world.old ≤ W.faults world.new }
{
    if let Some(next) = next_to_load(&desk.state, i) {
        load(desk, links, shelf, world, next);
    }
}

/// Reads the chunk of this byte. Where it cannot be read its entry is gone, and it is fetched again.
#[tactic(auto, using(pp_desk::proofs::DiskLemmas::holds_quietly, pp_shelf::proofs::SteadyLemmas::steady_none))]
fn load<W: World>(desk: &mut Desk, links: &Links, shelf: &mut Shelf, world: &mut W, next: Next)
    requires linked { IsLinked (W.log world.old) (W.top world.old) links.now }
    requires holds { Told (W.log world.old) (Holds anything shelf.old) }
    ensures linked { IsLinked (W.log world.new) (W.top world.new) links.now }
    ensures holds { Told (W.log world.new) (Holds anything shelf.new) }
    ensures steady { GrowsSteadily (W.log world.old) (W.log world.new) }
    ensures is { Loads next shelf.old desk.old.state shelf.new desk.new.state (W.log world.old) (W.log world.new) (W.faults world.old) (W.faults world.new) }
    ensures rest { record desk.new { state = record desk.new.state { cache = desk.old.state.cache; is_evicting = desk.old.state.is_evicting } } ≡ desk.old }
    ensures top { W.top world.new ≡ W.top world.old }
    ensures faults { W.faults world.old ≤ W.faults world.new }
{
    let Some(row) = desk.state.cache.row(next.source) else {
        return;
    };
    let Some(index) = chunk_at(next.at) else {
        return;
    };
    let mut chunk = [0; 4096];
    let answer = load_chunk(links, shelf, world, &row, index, &mut chunk);
    note_chunk(links, world, &row, index, &answer);
    take_chunk(&mut desk.state, next.source, index, &answer, &chunk);
}

/// The number of the chunk in which this byte stands.
fn chunk_at(at: u64) -> Option<u32>
    ensures { result ≡ chunk_at at }
{
    u32::try_from(at / CHUNK_LEN).ok()
}

/// Reads a chunk of a row. None exactly where it is not kept.
fn load_chunk<W: World>(
    _links: &Links,
    shelf: &mut Shelf,
    world: &mut W,
    row: &RowView<'_>,
    index: u32,
    out: &mut [u8; 4096],
) -> Option<Result<usize, LoadFault>>
    requires linked { IsLinked (W.log world.old) (W.top world.old) _links.now }
    requires holds { Told (W.log world.old) (Holds anything shelf.old) }
    ensures answered { is_some result ≡ keeps_byte (4096 * index) (kept_of row.now.key.now shelf.old) }
    ensures none { IfNone result (shelf.new ≡ shelf.old) }
    ensures map { IfSome result (λ r. shelf.new ≡ loaded_after r row.now.key.now shelf.old) }
    ensures within { IfSome result (λ r. IfOk r (λ n. n ≤ 4096)) }
    ensures linked { IsLinked (W.log world.new) (W.top world.new) _links.now }
    ensures holds { Told (W.log world.new) (Holds anything shelf.new) }
    ensures still { IfNone result (W.log world.new ≡ W.log world.old) }
    ensures bytes { IfSome result (λ r. Told (W.log world.old) (GivesChunk (row_of row.now.key.now shelf.old) index out.new r)) }
    ensures told { IfSome result (λ r. AppendsAll (W.log world.old) (W.log world.new) (λ l. load_happenings (name_of row.now.key.now) r)) }
    ensures cause { IfSome result (λ r. LoadCause (W.log world.new) (W.faults world.old) (W.faults world.new) (chunk_len (row_of row.now.key.now shelf.old).entry.version.length index) r) }
    ensures steady { GrowsSteadily (W.log world.old) (W.log world.new) }
    ensures top { W.top world.new ≡ W.top world.old }
    ensures faults { W.faults world.old ≤ W.faults world.new }
{
    shelf.load(world, row.key, index, out)
}

/// What was read is noted; where it cannot be read its entry is gone.
#[tactic(auto, using(pp_links::proofs::QuietLemmas::quiet_none, pp_desk::proofs::ShuttingLemmas::none_added))]
fn note_chunk<W: Wire>(
    links: &Links,
    world: &mut W,
    row: &RowView<'_>,
    index: u32,
    answer: &Option<Result<usize, LoadFault>>,
)
    requires { IsLinked (W.log world.old) (W.top world.old) links.now }
    ensures linked { IsLinked (W.log world.new) (W.top world.new) links.now }
    ensures quiet { GrowsQuietly (W.log world.old) (W.log world.new) }
    ensures told { AppendsAll (W.log world.old) (W.log world.new) (λ l. chunk_notes answer.now row.now.key.now row.now.version.now index) }
    ensures top { W.top world.new ≡ W.top world.old }
    ensures faults { W.faults world.old ≤ W.faults world.new }
{
    match answer {
        None => {}
        Some(Ok(_)) => {
            let note = Note::Loaded(
                row.key,
                row.version.tag.as_slice(),
                row.version.length,
                u64::from(index),
            );
            links.note(world, &note);
        }
        Some(Err(_)) => links.note(world, &Note::Gone(row.key)),
    }
}

/// The bytes of a chunk that was read join. Of one that was not nothing is kept any more.
fn take_chunk(
    state: &mut State,
    id: ObjectId,
    index: u32,
    answer: &Option<Result<usize, LoadFault>>,
    chunk: &[u8],
)
    requires { IfSome answer.now (λ r. IfOk r (λ n. n ≤ length chunk.now)) }
    ensures { TakesChunk answer.now chunk.now index id state.old state.new }
{
    match answer {
        Some(Ok(count)) => {
            let from = u64::from(index) * CHUNK_LEN;
            join(&mut state.cache, id, from, &chunk[..*count]);
            state.note_use();
        }
        Some(Err(_)) | None => state.cache.keep_to(id, 0),
    }
}

#[tactic(auto, using(pp_steps::proofs::BodyLemmas::joins))]
fn join(cache: &mut Cache, id: ObjectId, at: u64, bytes: &[u8])
    ensures { HasJoined (with_bytes id at bytes.now cache.old) cache.new }
{
    cache.add(id, at, bytes);
}
