// One file: what reads give of it, and what a crash may leave.
ghost use Rattle.std.specs.Prelude.{◌≡◌, ◌<◌, ◌≤◌, ◌+◌, [], ◌∷◌, false, length, map, slice_index, IfOk, OnOk};
ghost use Rattle.pp_world.specs.Disk.{IsLeft, IsLeftOf, bytes_in, is_loose, loosened, on_file, settled, splice, synced, unsynced, written};
ghost use Rattle.pp_memworld.specs.Edit.{edited, range_of};

use crate::choice::Choice;
use crate::parts::{back_of, front_of};
use pp_text::{Octets, OutOfMemory};
use std::alloc::Global;
use std::marker::Model;

/// What an operation does to each file that may stand under its name.
#[derive(Clone, Copy)]
pub(crate) enum Edit<'a> {
    /// These bytes are to stand from the offset on.
    Loosen(usize, &'a [u8]),
    /// They stand there.
    Overwrite(usize, &'a [u8]),
    /// All that the file holds stands through a crash.
    Settle,
}

/// A write since the last sync: its range, what stood there, and what was to stand there.
#[derive(Drop)]
struct Loose {
    from: usize,
    to: usize,
    old: Vec<u8>,
    new: Vec<u8>,
}

impl Loose {
    fn has(&self, at: usize) -> bool
        ensures { result ≡ is_loose at (range_of self.now ∷ []) }
    {
        self.from <= at && at < self.to
    }
}

/// The bytes of a file, the length that is synced, the greatest end written since, and the writes
/// since then, the latest first. Contracts see what the log says of the file.
#[derive(Drop)]
pub(crate) struct File {
    bytes: Vec<u8>,
    synced: usize,
    end: usize,
    loose: Vec<Loose>,
}

impl Model for File {
    ghost use Rattle.pp_world.specs.Disk.{Stored};

    ghost Value = { Stored };

    ghost use Rattle.pp_memworld.specs.File.{IsSound, stored_of};

    ghost view = { stored_of };

    ghost invariant = { IsSound };
}

impl File {
    /// A file of which nothing stands through a crash.
    #[tactic(auto, unfolding(pp_world::specs::Disk::unsynced))]
    pub(crate) fn unsynced(alloc: Global, bytes: &[u8]) -> Result<File, OutOfMemory>
        ensures { IfOk result (λ f. f ≡ unsynced bytes.now) }
    {
        Ok(File {
            bytes: Vec::from_slice(alloc, bytes)?,
            synced: 0,
            end: bytes.len(),
            loose: Vec::new(alloc),
        })
    }

    /// A file of which all stands through a crash.
    #[tactic(auto, unfolding(pp_world::specs::Disk::settled))]
    pub(crate) fn settled(alloc: Global, bytes: &[u8]) -> Result<File, OutOfMemory>
        ensures { IfOk result (λ f. f ≡ settled bytes.now) }
    {
        Ok(File {
            bytes: Vec::from_slice(alloc, bytes)?,
            synced: bytes.len(),
            end: bytes.len(),
            loose: Vec::new(alloc),
        })
    }

    pub(crate) fn bytes(&self) -> &[u8]
        ensures { result.now ≡ self.now.bytes }
    {
        self.bytes.as_slice()
    }

    pub(crate) fn edit(&mut self, alloc: Global, edit: Edit<'_>) -> Result<(), OutOfMemory>
        ensures { OnOk result (self.new ≡ edited edit.entry self.old) }
    {
        match edit {
            Edit::Loosen(at, bytes) => self.loosen(alloc, at, bytes),
            Edit::Overwrite(at, bytes) => self.overwrite(alloc, at, bytes),
            Edit::Settle => {
                self.settle();
                Ok(())
            }
        }
    }

    #[tactic(auto, unfolding(pp_world::specs::Disk::loosened))]
    fn loosen(&mut self, alloc: Global, at: usize, bytes: &[u8]) -> Result<(), OutOfMemory>
        ensures { OnOk result (self.new ≡ loosened at (at + length bytes.now) self.old) }
    {
        // A file that would end behind the greatest number has no memory.
        let to = at.checked_add(bytes.len()).ok_or(OutOfMemory)?;
        let write = Loose {
            from: at,
            to,
            old: Vec::from_slice(alloc, front_of(back_of(&self.bytes, at), bytes.len()))?,
            new: Vec::from_slice(alloc, bytes)?,
        };
        put_first(&mut self.loose, write)?;
        self.end = self.end.max(to);
        Ok(())
    }

    #[tactic(auto, unfolding(pp_world::specs::Disk::written))]
    fn overwrite(&mut self, alloc: Global, at: usize, bytes: &[u8]) -> Result<(), OutOfMemory>
        ensures { OnOk result (self.new ≡ written at bytes.now self.old) }
    {
        self.bytes = spliced(alloc, &self.bytes, at, bytes)?;
        Ok(())
    }

    #[tactic(auto, unfolding(pp_world::specs::Disk::settled))]
    fn settle(&mut self)
        ensures { self.new ≡ synced self.old }
    {
        self.synced = self.bytes.len();
        self.end = self.bytes.len();
        self.loose.clear();
    }

    /// What a crash leaves of the file.
    pub(crate) fn left(&self, alloc: Global, choice: &mut Choice) -> Result<Octets, OutOfMemory>
        ensures { IfOk result (IsLeft self.now) }
    {
        let len = choice.length(self.synced, self.end);
        let mut bytes = Vec::new(alloc);
        for at in 0..len {
            let byte = self.byte_left(at, choice);
            if bytes.push(byte).is_err() {
                return Err(OutOfMemory);
            }
        }
        Octets::copy(alloc, bytes.as_slice())
    }

    /// What a crash leaves at this offset: what reads give, below the synced length and outside of
    /// writes since then.
    fn byte_left(&self, at: usize, choice: &mut Choice) -> u8
        ensures { at < self.now.synced → is_loose at self.now.loose ≡ false → result ≡ slice_index self.now.bytes at }
    {
        let stands = self.bytes.get(at).copied().unwrap_or(0);
        if at < self.synced && !is_written(self.loose.as_slice(), at) {
            return stands;
        }
        choice.byte(
            oldest(self.loose.as_slice(), at, stands),
            newest(self.loose.as_slice(), at, stands),
        )
    }
}

/// What a crash leaves of a file, if there is one.
pub(crate) fn left_of(
    file: &Option<File>,
    alloc: Global,
    choice: &mut Choice,
) -> Result<Option<Octets>, OutOfMemory>
    ensures { IfOk result (IsLeftOf file.now) }
{
    match file {
        Some(file) => Ok(Some(file.left(alloc, choice)?)),
        None => Ok(None),
    }
}

/// Does this to the file, if there is one.
pub(crate) fn edit_if_there(
    file: &mut Option<File>,
    alloc: Global,
    edit: Edit<'_>,
) -> Result<(), OutOfMemory>
    ensures { OnOk result (file.new ≡ on_file (edited edit.entry) file.old) }
{
    match file {
        Some(file) => file.edit(alloc, edit),
        None => Ok(()),
    }
}

/// Bytes with others written over them from an offset on.
#[tactic(auto, unfolding(pp_world::specs::Disk::splice))]
fn spliced(alloc: Global, old: &[u8], at: usize, new: &[u8]) -> Result<Vec<u8>, OutOfMemory>
    ensures { IfOk result (λ v. v.items ≡ splice at new.now old.now) }
{
    let to = at.checked_add(new.len()).ok_or(OutOfMemory)?;
    let mut bytes = Vec::from_slice(alloc, front_of(old, at))?;
    bytes.extend_from_slice(new)?;
    bytes.extend_from_slice(back_of(old, to))?;
    Ok(bytes)
}

fn put_first(writes: &mut Vec<Loose>, write: Loose) -> Result<(), OutOfMemory>
    ensures { OnOk result (writes.new.items ≡ write ∷ writes.old.items) }
{
    match writes.insert(0, write) {
        Ok(()) => Ok(()),
        Err(_) => Err(OutOfMemory),
    }
}

/// Whether a write since the last sync has this offset.
fn is_written(writes: &[Loose], at: usize) -> bool
    ensures { result ≡ is_loose at (map range_of writes.now) }
{
    for write in writes {
        if write.has(at) {
            return true;
        }
    }
    false
}

/// What stood at this offset before the first write that has it; without one, this byte.
fn oldest(writes: &[Loose], at: usize, byte: u8) -> u8 {
    for write in writes.iter().rev() {
        if write.has(at) {
            return byte_at(write.old.as_slice(), at, write.from, byte);
        }
    }
    byte
}

/// What was to stand at this offset by the last write that has it; without one, this byte.
fn newest(writes: &[Loose], at: usize, byte: u8) -> u8 {
    for write in writes {
        if write.has(at) {
            return byte_at(write.new.as_slice(), at, write.from, byte);
        }
    }
    byte
}

/// The byte at this offset of a range that begins at `from`, or else this one.
fn byte_at(bytes: &[u8], at: usize, from: usize, byte: u8) -> u8 {
    match bytes.get(at.saturating_sub(from)) {
        Some(byte) => *byte,
        None => byte,
    }
}
