// Step 3: how much of an instance is to be kept next, and its bytes.
ghost use Rattle.std.specs.Prelude.{◌≡◌, ◌<◌, ◌≤◌, ◌+◌, ◌^◌, [], drop, length, nat_le, take, true, false, IfSome, Some, None};
ghost use Rattle.pp_client.specs.Replies.{run_at_hand};
ghost use Rattle.pp_fresh.specs.Ready.{is_ready};
ghost use Rattle.pp_keeping.specs.Runs.{bytes_for, entry_in, full_run, in_file, laid, plan_draft, plan_first, plan_new, plan_of, plan_seal, FitsIn, IsInBody};
ghost use Rattle.pp_objects.specs.Instances.{is_there};
ghost use Rattle.pp_seats.specs.Courses.{is_same_version};

use pp_cache::{CHUNK_LEN, Cache};
use pp_entry::body_at;
use pp_fresh::ready;
use pp_objects::{ObjectId, RowView};
use pp_shelf::Shelf;
use pp_state::State;
use pp_text::Fields;
use pp_valid::Version;

/// The bytes of the longest body that is kept.
const BODY_LEN: u64 = 1 << 26;

/// The chunks of a run at most.
const CHUNKS: u32 = 64;

/// How much of an instance is to be kept next.
#[derive(Clone, Copy)]
pub(crate) enum Plan {
    Nothing,
    /// An entry, with so many bytes of its body: none or all.
    Draft(u64),
    /// Behind so many bytes that are kept so many more.
    Seal(u64, u64),
}

/// How much of a row is to be kept next. What fails most often is asked first.
pub(crate) fn plan_row(state: &State, id: ObjectId, shelf: &Shelf, row: &RowView<'_>) -> Plan
    ensures is { result ≡ plan_of state.entry.now id row.now.retired (entry_in row.now) shelf.now }
    ensures within { IsInBody row.now.version.now.length result }
{
    if row.retired || row.version.length > BODY_LEN {
        return Plan::Nothing;
    }
    match shelf.kept(row.key) {
        None => plan_draft(state, id, row),
        Some(view) => plan_seal(state, id, row.version, view.version, view.extent),
    }
}

/// An entry is drafted once its first run is full, so that what was given up leaves none; with one chunk a run at once. Behind
/// one that failed, as on a full disk, none is tried before the next tick.
fn plan_draft(state: &State, id: ObjectId, row: &RowView<'_>) -> Plan
    requires { row.now.version.now.length ≤ 2 ^ 26 }
    ensures is { result ≡ plan_draft state.entry.now id (entry_in row.now) }
    ensures within { IsInBody row.now.version.now.length result }
{
    if state.has_lost_draft {
        Plan::Nothing
    } else {
        plan_new(state, id, row)
    }
}

fn plan_new(state: &State, id: ObjectId, row: &RowView<'_>) -> Plan
    requires { row.now.version.now.length ≤ 2 ^ 26 }
    ensures is { result ≡ plan_new state.entry.now id (entry_in row.now) }
    ensures within { IsInBody row.now.version.now.length result }
{
    if state.run <= 1 {
        return Plan::Draft(0);
    }
    if full_run(state, id, row.version.length, 0).is_some() {
        plan_first(state, row)
    } else {
        Plan::Nothing
    }
}

/// Where its first run is the whole body, it is drafted with all of it, and only while it can be served as it is: what its
/// next use must check anyway is not worth the three syncs of an entry.
fn plan_first(state: &State, row: &RowView<'_>) -> Plan
    requires { row.now.version.now.length ≤ 2 ^ 26 }
    ensures is { result ≡ plan_first state.entry.now (entry_in row.now) }
    ensures within { IsInBody row.now.version.now.length result }
{
    if row.version.length > CHUNK_LEN * u64::from(state.run) {
        return Plan::Draft(0);
    }
    if is_servable(row, state.now) {
        Plan::Draft(row.version.length)
    } else {
        Plan::Nothing
    }
}

/// Whether a plain request can be served from the row now, without a word from its origin.
fn is_servable(row: &RowView<'_>, now: u64) -> bool
    ensures { result ≡ is_ready [] row.now.fields row.now.times now }
{
    ready(&Fields::new(&[], &[]), &row.fields, &row.times, now)
}

/// Of an entry of the same version the next run is sealed.
fn plan_seal(state: &State, id: ObjectId, version: &Version, kept: &Version, extent: u64) -> Plan
    ensures is { result ≡ plan_seal state.entry.now id version.now kept.now extent }
    ensures within { IsInBody version.now.length result }
{
    if !is_same_version(version, kept) {
        return Plan::Nothing;
    }
    match full_run(state, id, version.length, extent) {
        None => Plan::Nothing,
        Some(len) => Plan::Seal(extent, len),
    }
}

fn is_same_version(version: &Version, known: &Version) -> bool
    ensures { result ≡ is_same_version version.now known.now }
{
    version.tag.as_slice() == known.tag.as_slice() && version.length == known.length
}

/// How many bytes the run behind this offset has, of a body of `n` bytes, where it is full or ends the body.
fn full_run(state: &State, id: ObjectId, n: u64, from: u64) -> Option<u64>
    ensures is { result ≡ full_run state.entry.now id n from }
    ensures within { IfSome result (λ len. from + len ≤ n) }
{
    let most = CHUNK_LEN * u64::from(state.run);
    let run = most.min(n.saturating_sub(from));
    let held = state.cache.next_hole(id, from).0.saturating_sub(from);
    if run > 0 && run <= held {
        Some(run)
    } else {
        None
    }
}

// ---- its bytes

/// Lays out in the file what is to be kept of a body of `n` bytes. False where not all of it is in memory.
pub(crate) fn lay_out(cache: &Cache, id: ObjectId, plan: Plan, n: u64, file: &mut [u8]) -> bool
    requires there { is_there id cache.now.instances ≡ true }
    requires within { IsInBody n plan }
    ensures all { result ≡ true → bytes_for plan n (length file.old) id cache.now ≡ Some (in_file plan n file.new) }
    ensures none { result ≡ false → bytes_for plan n (length file.old) id cache.now ≡ None }
    ensures fits { result ≡ true → FitsIn plan n (length file.new) }
{
    match plan {
        Plan::Nothing => false,
        Plan::Draft(whole) => lay(cache, id, 0, body_at(n), whole, file),
        Plan::Seal(extent, len) => lay(cache, id, extent, 0, len, file),
    }
}

/// Lays so many bytes of the instance behind the front of the file.
fn lay(cache: &Cache, id: ObjectId, from: u64, front: u64, len: u64, file: &mut [u8]) -> bool
    requires there { is_there id cache.now.instances ≡ true }
    requires near { from + len < 2 ^ 64 }
    ensures all { result ≡ true → laid front (length file.old) id from len cache.now ≡ Some (take len (drop front file.new)) }
    ensures none { result ≡ false → laid front (length file.old) id from len cache.now ≡ None }
    ensures fits { result ≡ true → front + len ≤ length file.new }
{
    let Some(end) = front.checked_add(len) else {
        return false;
    };
    if end > file.len() as u64 {
        return false;
    }
    let part = &mut file[front as usize..end as usize];
    copy(cache, id, from, CHUNKS, part)
}

/// Copies what the chunks of the instance hold from an offset on, so many at most. False where that is not all.
fn copy(cache: &Cache, id: ObjectId, at: u64, chunks: u32, out: &mut [u8]) -> bool
    requires there { is_there id cache.now.instances ≡ true }
    requires near { at + length out.old < 2 ^ 64 }
    ensures is { result ≡ nat_le (length out.old) (length (run_at_hand chunks id.slot at cache.now.chunks)) }
    ensures bytes { result ≡ true → out.new ≡ take (length out.old) (run_at_hand chunks id.slot at cache.now.chunks) }
{
    let len = out.len();
    if len == 0 {
        return true;
    }
    if chunks == 0 {
        return false;
    }
    let piece = cache.piece(id, at);
    if len <= piece.len() {
        out.copy_from_slice(&piece[..len]);
        return true;
    }
    let filled = at % CHUNK_LEN + piece.len() as u64;
    if filled != CHUNK_LEN {
        return false;
    }
    let (front, rest) = out.split_at_mut(piece.len());
    front.copy_from_slice(piece);
    copy(cache, id, at + piece.len() as u64, chunks - 1, rest)
}
