// What the log and the table of connections become by one step.
ghost use Rattle.std.specs.Prelude.{◌≡◌, ◌<◌, ◌^◌, ℕ, true, [], ◌∷◌, ◌++◌, vec_len, if◌then◌else◌, ◌==◌, IsTrue, IfOk, Some, None};
ghost use Rattle.pp_world.specs.Wire.{remark_of};
ghost use Rattle.pp_memworld.specs.Failures.{Adds};
ghost use Rattle.pp_memworld.specs.Folder.{Hears, is_sound};
ghost use Rattle.pp_memworld.specs.Sides.{side_at};

use crate::folder::Folder;
use pp_text::{Octets, OutOfMemory};
use pp_world::{Happening, Image, Name, Note, Remark, Side};
use std::alloc::{AllocError, Global};
use std::collections::BTreeMap;

/// The log of a life that begins after this one.
pub(crate) fn begun(mut log: Vec<Happening>, image: Image) -> Result<Vec<Happening>, OutOfMemory>
    ensures { IfOk result (λ l. l.items ≡ log.items ++ Happening.Woke image ∷ []) }
{
    log.push(Happening::Woke(image)).map_err(AllocError::from)?;
    Ok(log)
}

/// Whether the log is told still, after a happening that the folder follows.
pub(crate) fn follow(
    told: bool,
    alloc: Global,
    log: &mut Vec<Happening>,
    folder: &mut Folder,
    happening: Happening,
) -> bool
    requires { IsTrue (is_sound happening) }
    ensures told { result ≡ true → told ≡ true }
    ensures pushed { result ≡ true → log.new.items ≡ log.old.items ++ happening ∷ [] }
    ensures hears { result ≡ true → Hears happening folder.old folder.new }
{
    let heard = folder.hear(alloc, &happening).is_ok();
    push(told && heard, log, happening)
}

/// Whether the log is told still, after a read that failed, which the folder follows.
pub(crate) fn follow_unread(
    told: bool,
    log: &mut Vec<Happening>,
    folder: &mut Folder,
    name: &Name,
) -> bool
    ensures told { result ≡ true → told ≡ true }
    ensures pushed { result ≡ true → log.new.items ≡ log.old.items ++ Happening.Unread name.now ∷ [] }
    ensures failed { result ≡ true → Adds name.now folder.old.failed folder.new.failed }
    ensures draft { folder.new.draft ≡ folder.old.draft }
    ensures slots { folder.new.slots ≡ folder.old.slots }
{
    let marked = folder.mark(name).is_ok();
    push(told && marked, log, Happening::Unread(*name))
}

/// Whether the log is told still, after one happening more.
pub(crate) fn push(told: bool, log: &mut Vec<Happening>, happening: Happening) -> bool
    ensures told { result ≡ true → told ≡ true }
    ensures pushed { result ≡ true → log.new.items ≡ log.old.items ++ happening ∷ [] }
    ensures fits { vec_len log.new < 2 ^ 63 }
{
    let kept = log.push(happening).is_ok();
    told && kept
}

pub(crate) fn push_dialled(
    told: bool,
    log: &mut Vec<Happening>,
    alloc: Global,
    id: u64,
    host: &[u8],
    port: u16,
) -> bool
    ensures told { result ≡ true → told ≡ true }
    ensures pushed { result ≡ true → log.new.items ≡ log.old.items ++ Happening.Dialled id host.now port ∷ [] }
{
    match Octets::copy(alloc, host) {
        Ok(copy) => push(told, log, Happening::Dialled(id, copy, port)),
        Err(_) => false,
    }
}

/// Whether the log is told still, after a connection more.
pub(crate) fn place(told: bool, sides: &mut BTreeMap<u64, Side>, id: u64, side: Side) -> bool
    ensures told { result ≡ true → told ≡ true }
    ensures placed { result ≡ true → (q : ℕ) → side_at sides.new q ≡ (if id == q then Some side else side_at sides.old q) }
{
    let placed = sides.insert(id, side).is_ok();
    told && placed
}

/// Whose the connection was, which is open no more.
pub(crate) fn displace(sides: &mut BTreeMap<u64, Side>, id: u64) -> Option<Side>
    ensures was { result ≡ side_at sides.old id }
    ensures removed { (q : ℕ) → side_at sides.new q ≡ (if id == q then None else side_at sides.old q) }
{
    sides.remove(&id)
}

/// A note as the log keeps it.
pub(crate) fn remark(alloc: Global, note: &Note<'_>) -> Result<Remark, OutOfMemory>
    ensures { IfOk result (λ r. r ≡ remark_of note.now) }
{
    match *note {
        Note::Taken(client, request, decision) => Ok(Remark::Taken(client, request, decision)),
        Note::Cut(client, cause) => Ok(Remark::Cut(client, cause)),
        Note::Kept(key, tag, len, extent) => {
            let (key, tag) = copy_both(alloc, key, tag)?;
            Ok(Remark::Kept(key, tag, len, extent))
        }
        Note::Gone(key) => Ok(Remark::Gone(Octets::copy(alloc, key)?)),
        Note::Forgotten(key) => Ok(Remark::Forgotten(Octets::copy(alloc, key)?)),
        Note::Evicted(key, tag, len, chunk) => {
            let (key, tag) = copy_both(alloc, key, tag)?;
            Ok(Remark::Evicted(key, tag, len, chunk))
        }
        Note::Loaded(key, tag, len, chunk) => {
            let (key, tag) = copy_both(alloc, key, tag)?;
            Ok(Remark::Loaded(key, tag, len, chunk))
        }
    }
}

/// The key of a version, and its tag.
pub(crate) fn copy_both(
    alloc: Global,
    key: &[u8],
    tag: &[u8],
) -> Result<(Octets, Octets), OutOfMemory>
    ensures { IfOk result (λ both. (both.0 ≡ key.now) × (both.1 ≡ tag.now)) }
{
    let key = Octets::copy(alloc, key)?;
    let tag = Octets::copy(alloc, tag)?;
    Ok((key, tag))
}
