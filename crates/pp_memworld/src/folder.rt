// The files of a folder as the happenings of a log leave them.
ghost use Rattle.std.specs.Prelude.{◌≡◌, ◌≤◌, ◌∷◌, [], ◌++◌, false, true, ◌||◌, IsTrue, ◌≢◌, ℕ, List, length, map, is_some, None, Some, IfOk, OnOk};
ghost use Rattle.std.specs.List.{list_all};
ghost use Rattle.pp_world.specs.declared.happening.Happening.TheVariants.{Woke, Began, Did};
ghost use Rattle.pp_world.specs.Disk.{AreNames, LeavesOne, Stored, bytes_in, is_name, is_name_byte, on_file, synced, synced_unless};
ghost use Rattle.pp_world.specs.Files.{file_of};
ghost use Rattle.pp_memworld.specs.Edit.{edited};
ghost use Rattle.pp_memworld.specs.Failures.{Adds, has_failed};
ghost use Rattle.pp_memworld.specs.Folder.{Follows, Hears, is_sound, listed_in, listed_one};
ghost use Rattle.pp_memworld.specs.Slots.{AreListed, Changes, files_at, first_of, rested};

use crate::choice::Choice;
use crate::draft::Draft;
use crate::file::{Edit, File};
use crate::image;
use crate::slot::Slot;
use crate::slots::{Slots, put, take};
use pp_text::{Octets, OutOfMemory};
use pp_world::{DiskOp, Happening, Image, Name};
use std::alloc::Global;
use std::collections::{BTreeMap, BTreeSet};

/// How many names a listing has at most.
const MAX_NAMES: usize = 65_536;

/// The draft, what stands under each name, and the names on which an operation failed in this life.
#[derive(Drop)]
pub(crate) struct Folder {
    draft: Option<Draft>,
    slots: Slots,
    failed: BTreeSet<Name>,
}

impl Folder {
    /// No files, as before all lives.
    pub(crate) fn new(alloc: Global) -> Folder
        ensures { Follows [] result }
    {
        Folder {
            draft: None,
            slots: BTreeMap::new(alloc),
            failed: BTreeSet::new(alloc),
        }
    }

    /// Follows one happening. Where memory was refused, the folder follows no log any more.
    pub(crate) fn hear(&mut self, alloc: Global, happening: &Happening) -> Result<(), OutOfMemory>
        requires { IsTrue (is_sound happening.now) }
        ensures { OnOk result (Hears happening.now self.old self.new) }
    {
        match happening {
            Happening::Woke(image) => self.wake(alloc, image),
            Happening::Began(op) => self.begin(alloc, op),
            Happening::Did(op, true) => self.finish(alloc, op),
            Happening::Did(op, false) => self.fail(op),
            Happening::Unread(name) => self.mark(name),
            _ => Ok(()),
        }
    }

    /// A life begins: each file is as the crash left it.
    pub(crate) fn wake(&mut self, alloc: Global, image: &Image) -> Result<(), OutOfMemory>
        requires { AreListed image.now }
        ensures hears { OnOk result (Hears (Woke image.now) self.old self.new) }
        ensures rests { OnOk result (self.new.slots.entries ≡ map rested image.now) }
    {
        self.draft = None;
        self.slots = image::rest(alloc, image)?;
        self.failed = BTreeSet::new(alloc);
        Ok(())
    }

    /// An operation began.
    fn begin(&mut self, alloc: Global, op: &DiskOp) -> Result<(), OutOfMemory>
        ensures { OnOk result (Hears (Began op.now) self.old self.new) }
    {
        match op {
            DiskOp::Draft(_) => {
                self.draft = None;
                Ok(())
            }
            DiskOp::SyncDraft | DiskOp::Sync(_) => Ok(()),
            DiskOp::Publish(name) => {
                let file = self.drafted(alloc)?;
                self.doubt(alloc, name, file)
            }
            DiskOp::Write(name, at, bytes) => {
                self.edit(alloc, name, Edit::Loosen(*at as usize, bytes.as_slice()))
            }
            DiskOp::Remove(name) => self.doubt(alloc, name, None),
        }
    }

    /// It was done.
    fn finish(&mut self, alloc: Global, op: &DiskOp) -> Result<(), OutOfMemory>
        ensures { OnOk result (Hears (Did op.now true) self.old self.new) }
    {
        match op {
            DiskOp::Draft(bytes) => {
                self.draft = Some(Draft::new(alloc, bytes.as_slice())?);
                Ok(())
            }
            DiskOp::SyncDraft => {
                self.sync_draft();
                Ok(())
            }
            DiskOp::Publish(name) => {
                let file = self.drafted(alloc)?;
                self.draft = None;
                self.stand(alloc, name, file)
            }
            DiskOp::Write(name, at, bytes) => {
                self.edit(alloc, name, Edit::Overwrite(*at as usize, bytes.as_slice()))
            }
            DiskOp::Sync(name) => self.settle(alloc, name),
            DiskOp::Remove(name) => self.stand(alloc, name, None),
        }
    }

    /// It failed: what it left in doubt stays so, and a draft that was to be synced or published is no
    /// more.
    fn fail(&mut self, op: &DiskOp) -> Result<(), OutOfMemory>
        ensures { OnOk result (Hears (Did op.now false) self.old self.new) }
    {
        match op {
            DiskOp::Draft(_) => Ok(()),
            DiskOp::SyncDraft => {
                self.draft = None;
                Ok(())
            }
            DiskOp::Publish(name) => {
                self.draft = None;
                self.mark(name)
            }
            DiskOp::Write(name, _, _) | DiskOp::Sync(name) | DiskOp::Remove(name) => {
                self.mark(name)
            }
        }
    }

    /// An operation on this name failed, or a read of its file.
    pub(crate) fn mark(&mut self, name: &Name) -> Result<(), OutOfMemory>
        ensures failed { OnOk result (Adds name.now self.old.failed self.new.failed) }
        ensures draft { self.new.draft ≡ self.old.draft }
        ensures slots { self.new.slots ≡ self.old.slots }
    {
        add(&mut self.failed, name)
    }

    /// The file that the draft would be.
    fn drafted(&self, alloc: Global) -> Result<Option<File>, OutOfMemory>
        ensures { IfOk result (λ file. file ≡ self.now.draft) }
    {
        match &self.draft {
            Some(draft) => Ok(Some(draft.file(alloc)?)),
            None => Ok(None),
        }
    }

    fn sync_draft(&mut self)
        ensures draft { self.new.draft ≡ on_file synced self.old.draft }
        ensures slots { self.new.slots ≡ self.old.slots }
        ensures failed { self.new.failed ≡ self.old.failed }
    {
        if let Some(draft) = &mut self.draft {
            draft.sync();
        }
    }

    /// This file, or none, may stand under the name too.
    fn doubt(&mut self, alloc: Global, name: &Name, file: Option<File>) -> Result<(), OutOfMemory>
        ensures slots { OnOk result (Changes name.now (λ files. files ++ file ∷ []) self.old.slots self.new.slots) }
        ensures draft { self.new.draft ≡ self.old.draft }
        ensures failed { self.new.failed ≡ self.old.failed }
    {
        let mut slot = take(&mut self.slots, alloc, name);
        slot.doubt(file)?;
        put(&mut self.slots, name, slot)
    }

    /// This file, or none, stands under the name.
    fn stand(&mut self, alloc: Global, name: &Name, file: Option<File>) -> Result<(), OutOfMemory>
        ensures slots { OnOk result (Changes name.now (λ files. file ∷ []) self.old.slots self.new.slots) }
        ensures draft { self.new.draft ≡ self.old.draft }
        ensures failed { self.new.failed ≡ self.old.failed }
    {
        put(&mut self.slots, name, Slot::of(alloc, file))
    }

    /// Does this to each file that may stand under the name.
    fn edit(&mut self, alloc: Global, name: &Name, edit: Edit<'_>) -> Result<(), OutOfMemory>
        ensures slots { OnOk result (Changes name.now (map (on_file (edited edit.entry))) self.old.slots self.new.slots) }
        ensures draft { self.new.draft ≡ self.old.draft }
        ensures failed { self.new.failed ≡ self.old.failed }
    {
        let mut slot = take(&mut self.slots, alloc, name);
        slot.edit(alloc, edit)?;
        put(&mut self.slots, name, slot)
    }

    /// Settles the file of this name, unless an operation on it failed before.
    fn settle(&mut self, alloc: Global, name: &Name) -> Result<(), OutOfMemory>
        ensures slots { OnOk result (Changes name.now (synced_unless (has_failed name.now self.old.failed)) self.old.slots self.new.slots) }
        ensures draft { self.new.draft ≡ self.old.draft }
        ensures failed { self.new.failed ≡ self.old.failed }
    {
        if self.failed.contains(name) {
            return Ok(());
        }
        self.edit(alloc, name, Edit::Settle)
    }

    pub(crate) fn has_draft(&self) -> bool
        ensures { result ≡ is_some self.now.draft }
    {
        self.draft.is_some()
    }

    /// Whether one file alone may stand under the name, and is so long at least.
    pub(crate) fn reaches(&self, name: &Name, at: u64) -> bool
        ensures { result ≡ true → (f : Stored) × (files_at name.now self.now.slots ≡ Some f ∷ []) × (at ≤ length f.bytes) }
    {
        match self.slots.get(name) {
            Some(slot) => slot.reaches(at),
            None => false,
        }
    }

    /// The bytes of the file that stands under the name, as reads give it.
    pub(crate) fn bytes(&self, name: &Name) -> &[u8]
        ensures { result.now ≡ bytes_in (first_of (files_at name.now self.now.slots)) }
    {
        match self.slots.get(name) {
            Some(slot) => slot.bytes(),
            None => &[],
        }
    }

    /// The names of files in their order, as many as a listing has.
    pub(crate) fn names(&self, alloc: Global) -> Result<Vec<Name>, OutOfMemory>
        ensures listed { IfOk result (λ names. names.items ≡ listed_in self.now.slots.entries) }
        ensures form { IfOk result (λ names. AreNames names.items) }
    {
        let mut names = Vec::new(alloc);
        for (name, slot) in self.slots.iter() {
            list(&mut names, name, slot)?;
        }
        Ok(names)
    }

    /// The files that a crash leaves.
    pub(crate) fn left(&self, alloc: Global, choice: &mut Choice) -> Result<Image, OutOfMemory>
        ensures left { IfOk result (λ image. (name : List ℕ) → LeavesOne (files_at name self.now.slots) (file_of name image)) }
        ensures listed { IfOk result (λ image. AreListed image) }
    {
        let mut image = Image::new(alloc);
        for (name, slot) in self.slots.iter() {
            leave(&mut image, name, slot, alloc, choice)?;
        }
        Ok(image)
    }
}

fn add(names: &mut BTreeSet<Name>, name: &Name) -> Result<(), OutOfMemory>
    ensures { OnOk result (Adds name.now names.old names.new) }
{
    match names.insert(*name) {
        Ok(_) => Ok(()),
        Err(_) => Err(OutOfMemory),
    }
}

/// Lists the name where a file has it, as long as a listing has room.
fn list(names: &mut Vec<Name>, name: &Name, slot: &Slot) -> Result<(), OutOfMemory>
    ensures { OnOk result (names.new.items ≡ listed_one name.now slot.now names.old.items) }
{
    if names.len() < MAX_NAMES && slot.is_file() && is_name(name) {
        push(names, *name)
    } else {
        Ok(())
    }
}

fn push(names: &mut Vec<Name>, name: Name) -> Result<(), OutOfMemory>
    ensures { OnOk result (names.new.items ≡ names.old.items ++ name ∷ []) }
{
    match names.push(name) {
        Ok(()) => Ok(()),
        Err(_) => Err(OutOfMemory),
    }
}

/// Puts what a crash leaves under the name.
fn leave(
    image: &mut Image,
    name: &Name,
    slot: &Slot,
    alloc: Global,
    choice: &mut Choice,
) -> Result<(), OutOfMemory>
    requires absent { file_of name.now image.old ≡ None }
    requires listed { AreListed image.old }
    ensures left { OnOk result (LeavesOne slot.now (file_of name.now image.new)) }
    ensures others { OnOk result ((other : List ℕ) → other ≢ name.now → file_of other image.new ≡ file_of other image.old) }
    ensures listed { OnOk result (AreListed image.new) }
{
    match slot.left(alloc, choice)? {
        Some(bytes) => image.put(*name, bytes),
        None => Ok(()),
    }
}

/// Whether this is a name of digits and of letters from a to f.
fn is_name(name: &Name) -> bool
    ensures { result ≡ is_name name.now }
{
    is_of_name_bytes(name)
}

fn is_of_name_bytes(bytes: &[u8]) -> bool
    ensures { result ≡ list_all is_name_byte bytes.now }
{
    bytes.iter().all(|byte| is_name_byte(*byte))
}

fn is_name_byte(byte: u8) -> bool
    ensures { result ≡ is_name_byte byte }
{
    byte.is_ascii_digit() || (b'a'..=b'f').contains(&byte)
}
