// Step 3: a run of chunks of one instance that is kept.
ghost use Rattle.std.specs.Prelude.{◌≡◌, ◌≤◌, ◌+◌, drop, length, true};
ghost use Rattle.pp_desk.specs.Anything.{anything};
ghost use Rattle.pp_entry.specs.Texts.{body_at};
ghost use Rattle.pp_keeping.specs.Kept.{outside, Notes};
ghost use Rattle.pp_keeping.specs.Runs.{draft_notes, drafted_to, entry_in, in_file, kept_note, seal_notes, sealed_to, DraftsRow, FitsIn, IsInBody, KeepsBytes, KeepsNext, KeepsRow, SealsRow};
ghost use Rattle.pp_links.specs.Links.{IsLinked};
ghost use Rattle.pp_links.specs.Quiet.{GrowsQuietly};
ghost use Rattle.pp_objects.specs.Instances.{is_there};
ghost use Rattle.pp_shelf.specs.Steady.{GrowsSteadily};
ghost use Rattle.pp_store.specs.Held.{Holds};
ghost use Rattle.pp_world.specs.Log.{AppendsAll, Told};

use crate::disk::{draft, seal};
use crate::plan::{Plan, lay_out, plan_row};
use pp_entry::body_at;
use pp_links::Links;
use pp_objects::{ObjectId, RowView};
use pp_shelf::Shelf;
use pp_state::State;
use pp_store::KeepFault;
use pp_world::{DiskFault, Note, Wire, World};
use std::alloc::Global;

/// What became of a run.
#[derive(Clone, Copy)]
pub(crate) enum Outcome {
    /// So many bytes of the instance are kept now.
    To(u64),
    /// The draft of its entry failed.
    LostDraft,
}

/// Keeps the next run of an instance, where it is full or ends the body. None where nothing is to be kept.
#[tactic(auto, using(pp_shelf::proofs::SteadyLemmas::steady_none))]
pub(crate) fn keep_next<W: World>(
    state: &State,
    id: ObjectId,
    links: &Links,
    shelf: &mut Shelf,
    world: &mut W,
    file: &mut [u8],
) -> Option<Outcome>
    requires linked { IsLinked (W.log world.old) (W.top world.old) links.now }
    requires holds { Told (W.log world.old) (Holds anything shelf.old) }
    ensures linked { IsLinked (W.log world.new) (W.top world.new) links.now }
    ensures holds { Told (W.log world.new) (Holds anything shelf.new) }
    ensures steady { GrowsSteadily (W.log world.old) (W.log world.new) }
    ensures is { KeepsNext state.entry.now id (length file.old) (outside shelf.old (W.log world.old) (W.faults world.old)) (outside shelf.new (W.log world.new) (W.faults world.new)) result }
    ensures top { W.top world.new ≡ W.top world.old }
    ensures faults { W.faults world.old ≤ W.faults world.new }
{
    let row = state.cache.row(id)?;
    keep_row(state, id, links, shelf, world, file, &row)
}

/// The same of its row.
#[tactic(auto, using(pp_shelf::proofs::SteadyLemmas::steady_none))]
fn keep_row<W: World>(
    state: &State,
    id: ObjectId,
    links: &Links,
    shelf: &mut Shelf,
    world: &mut W,
    file: &mut [u8],
    row: &RowView<'_>,
) -> Option<Outcome>
    requires there { is_there id state.now.cache.instances ≡ true }
    requires linked { IsLinked (W.log world.old) (W.top world.old) links.now }
    requires holds { Told (W.log world.old) (Holds anything shelf.old) }
    ensures linked { IsLinked (W.log world.new) (W.top world.new) links.now }
    ensures holds { Told (W.log world.new) (Holds anything shelf.new) }
    ensures steady { GrowsSteadily (W.log world.old) (W.log world.new) }
    ensures is { KeepsRow state.entry.now id (length file.old) row.now.retired (entry_in row.now) (outside shelf.old (W.log world.old) (W.faults world.old)) (outside shelf.new (W.log world.new) (W.faults world.new)) result }
    ensures top { W.top world.new ≡ W.top world.old }
    ensures faults { W.faults world.old ≤ W.faults world.new }
{
    let plan = plan_row(state, id, shelf, row);
    if !lay_out(&state.cache, id, plan, row.version.length, file) {
        return None;
    }
    write(state.alloc, links, shelf, world, row, plan, file)
}

/// Puts on the disk what is laid out in the file.
#[tactic(auto, using(pp_shelf::proofs::SteadyLemmas::steady_none))]
fn write<W: World>(
    alloc: Global,
    links: &Links,
    shelf: &mut Shelf,
    world: &mut W,
    row: &RowView<'_>,
    plan: Plan,
    file: &mut [u8],
) -> Option<Outcome>
    requires within { IsInBody row.now.version.now.length plan }
    requires fits { FitsIn plan row.now.version.now.length (length file.old) }
    requires linked { IsLinked (W.log world.old) (W.top world.old) links.now }
    requires holds { Told (W.log world.old) (Holds anything shelf.old) }
    ensures linked { IsLinked (W.log world.new) (W.top world.new) links.now }
    ensures holds { Told (W.log world.new) (Holds anything shelf.new) }
    ensures steady { GrowsSteadily (W.log world.old) (W.log world.new) }
    ensures is { KeepsBytes plan (in_file plan row.now.version.now.length file.old) (entry_in row.now) (outside shelf.old (W.log world.old) (W.faults world.old)) (outside shelf.new (W.log world.new) (W.faults world.new)) result }
    ensures top { W.top world.new ≡ W.top world.old }
    ensures faults { W.faults world.old ≤ W.faults world.new }
{
    match plan {
        Plan::Nothing => None,
        Plan::Draft(whole) => {
            let end = body_at(row.version.length) + whole;
            let room = &mut file[..end as usize];
            draft_row(alloc, links, shelf, world, row, whole, room)
        }
        Plan::Seal(_, len) => seal_row(links, shelf, world, row, &file[..len as usize]),
    }
}

/// An entry is drafted as it is laid out in the room, with so many bytes of its body.
#[tactic(auto, using(pp_desk::proofs::DiskLemmas::holds_quietly))]
fn draft_row<W: World>(
    alloc: Global,
    links: &Links,
    shelf: &mut Shelf,
    world: &mut W,
    row: &RowView<'_>,
    extent: u64,
    room: &mut [u8],
) -> Option<Outcome>
    requires long { length room.old ≡ body_at row.now.version.now.length + extent }
    requires linked { IsLinked (W.log world.old) (W.top world.old) links.now }
    requires holds { Told (W.log world.old) (Holds anything shelf.old) }
    ensures linked { IsLinked (W.log world.new) (W.top world.new) links.now }
    ensures holds { Told (W.log world.new) (Holds anything shelf.new) }
    ensures steady { GrowsSteadily (W.log world.old) (W.log world.new) }
    ensures is { DraftsRow (entry_in row.now) (drop (body_at row.now.version.now.length) room.old) (outside shelf.old (W.log world.old) (W.faults world.old)) (outside shelf.new (W.log world.new) (W.faults world.new)) result }
    ensures top { W.top world.new ≡ W.top world.old }
    ensures faults { W.faults world.old ≤ W.faults world.new }
{
    let answer = draft(alloc, links, shelf, world, row, room);
    note_drafted(links, world, row, extent, &answer);
    drafted_to(&answer, extent)
}

/// Where it is drafted with all of its body, that is noted.
#[tactic(auto, using(pp_links::proofs::QuietLemmas::quiet_none, pp_desk::proofs::ShuttingLemmas::none_added))]
fn note_drafted<W: Wire>(
    links: &Links,
    world: &mut W,
    row: &RowView<'_>,
    extent: u64,
    answer: &Option<Result<(), KeepFault>>,
)
    requires { IsLinked (W.log world.old) (W.top world.old) links.now }
    ensures linked { IsLinked (W.log world.new) (W.top world.new) links.now }
    ensures quiet { GrowsQuietly (W.log world.old) (W.log world.new) }
    ensures told { AppendsAll (W.log world.old) (W.log world.new) (λ l. draft_notes answer.now (entry_in row.now) extent) }
    ensures top { W.top world.new ≡ W.top world.old }
    ensures faults { W.faults world.old ≤ W.faults world.new }
{
    match answer {
        None | Some(Err(_)) => {}
        Some(Ok(())) => {
            if extent != 0 {
                note_kept(links, world, row, extent);
            }
        }
    }
}

fn drafted_to(answer: &Option<Result<(), KeepFault>>, extent: u64) -> Option<Outcome>
    ensures { result ≡ drafted_to answer.now extent }
{
    match answer {
        None => None,
        Some(Ok(())) => Some(Outcome::To(extent)),
        Some(Err(KeepFault::NoDraft)) => Some(Outcome::LostDraft),
        Some(
            Err(
                KeepFault::Closed
                | KeepFault::Full
                | KeepFault::TooLong
                | KeepFault::DiskFault
                | KeepFault::OutOfMemory,
            ),
        ) => None,
    }
}

/// Of one that is kept so far a run is sealed. Where the disk fails, its entry is gone.
#[tactic(auto, using(pp_desk::proofs::DiskLemmas::holds_quietly))]
fn seal_row<W: World>(
    links: &Links,
    shelf: &mut Shelf,
    world: &mut W,
    row: &RowView<'_>,
    bytes: &[u8],
) -> Option<Outcome>
    requires linked { IsLinked (W.log world.old) (W.top world.old) links.now }
    requires holds { Told (W.log world.old) (Holds anything shelf.old) }
    ensures linked { IsLinked (W.log world.new) (W.top world.new) links.now }
    ensures holds { Told (W.log world.new) (Holds anything shelf.new) }
    ensures steady { GrowsSteadily (W.log world.old) (W.log world.new) }
    ensures is { SealsRow (entry_in row.now) bytes.now (outside shelf.old (W.log world.old) (W.faults world.old)) (outside shelf.new (W.log world.new) (W.faults world.new)) result }
    ensures top { W.top world.new ≡ W.top world.old }
    ensures faults { W.faults world.old ≤ W.faults world.new }
{
    let answer = seal(links, shelf, world, row, bytes);
    note_sealed(links, world, row, &answer);
    sealed_to(&answer)
}

/// How far it is kept now, or that its entry is gone.
#[tactic(auto, using(pp_links::proofs::QuietLemmas::quiet_none, pp_desk::proofs::ShuttingLemmas::none_added))]
fn note_sealed<W: Wire>(
    links: &Links,
    world: &mut W,
    row: &RowView<'_>,
    answer: &Option<Result<u64, DiskFault>>,
)
    requires { IsLinked (W.log world.old) (W.top world.old) links.now }
    ensures linked { IsLinked (W.log world.new) (W.top world.new) links.now }
    ensures quiet { GrowsQuietly (W.log world.old) (W.log world.new) }
    ensures told { AppendsAll (W.log world.old) (W.log world.new) (λ l. seal_notes answer.now (entry_in row.now)) }
    ensures top { W.top world.new ≡ W.top world.old }
    ensures faults { W.faults world.old ≤ W.faults world.new }
{
    match answer {
        None => {}
        Some(Ok(extent)) => note_kept(links, world, row, *extent),
        Some(Err(DiskFault)) => links.note(world, &Note::Gone(row.key)),
    }
}

fn sealed_to(answer: &Option<Result<u64, DiskFault>>) -> Option<Outcome>
    ensures { result ≡ sealed_to answer.now }
{
    match answer {
        None => None,
        Some(Ok(extent)) => Some(Outcome::To(*extent)),
        Some(Err(DiskFault)) => Some(Outcome::To(0)),
    }
}

/// So many bytes are kept, through a crash too.
fn note_kept<W: Wire>(links: &Links, world: &mut W, row: &RowView<'_>, extent: u64)
    requires { IsLinked (W.log world.old) (W.top world.old) links.now }
    ensures linked { IsLinked (W.log world.new) (W.top world.new) links.now }
    ensures quiet { GrowsQuietly (W.log world.old) (W.log world.new) }
    ensures told { AppendsAll (W.log world.old) (W.log world.new) (λ l. kept_note (entry_in row.now) extent) }
    ensures top { W.top world.new ≡ W.top world.old }
    ensures faults { W.faults world.old ≤ W.faults world.new }
{
    let version = row.version;
    links.note(
        world,
        &Note::Kept(row.key, version.tag.as_slice(), version.length, extent),
    );
}
