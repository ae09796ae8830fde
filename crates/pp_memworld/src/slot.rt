// The files one of which stands under a name.
ghost use Rattle.std.specs.Prelude.{◌≡◌, ◌≤◌, true, [], ◌∷◌, ◌++◌, length, map, Some, IfOk, OnOk};
ghost use Rattle.pp_world.specs.Disk.{LeavesOne, Stored, bytes_in, on_file};
ghost use Rattle.pp_memworld.specs.Edit.{edited};
ghost use Rattle.pp_memworld.specs.Slots.{first_of, is_file};

use crate::choice::Choice;
use crate::file::{Edit, File, edit_if_there, left_of};
use pp_text::{Octets, OutOfMemory};
use std::alloc::Global;
use std::marker::Model;

/// The file that reads give, or none, and those that a publish or remove in doubt may have put in
/// its place, the latest last. Contracts see the list of all of them.
#[derive(Drop)]
pub(crate) struct Slot {
    file: Option<File>,
    doubts: Vec<Option<File>>,
}

impl Model for Slot {
    ghost use Rattle.std.specs.Prelude.{List, Option, ◌∷◌};
    ghost use Rattle.pp_world.specs.Disk.{Stored};

    ghost Value = { List (Option Stored) };

    ghost view = { λ s. s.file ∷ s.doubts.items };
}

impl Slot {
    pub(crate) fn of(alloc: Global, file: Option<File>) -> Slot
        ensures { result ≡ file ∷ [] }
    {
        Slot {
            file,
            doubts: Vec::new(alloc),
        }
    }

    /// This file, or none, may stand here too.
    pub(crate) fn doubt(&mut self, file: Option<File>) -> Result<(), OutOfMemory>
        ensures { OnOk result (self.new ≡ self.old ++ file ∷ []) }
    {
        match self.doubts.push(file) {
            Ok(()) => Ok(()),
            Err(_) => Err(OutOfMemory),
        }
    }

    /// Does this to each file.
    pub(crate) fn edit(&mut self, alloc: Global, edit: Edit<'_>) -> Result<(), OutOfMemory>
        ensures { OnOk result (self.new ≡ map (on_file (edited edit.entry)) self.old) }
    {
        edit_if_there(&mut self.file, alloc, edit)?;
        edit_all(self.doubts.as_mut_slice(), alloc, edit)
    }

    pub(crate) fn is_file(&self) -> bool
        ensures { result ≡ is_file (first_of self.now) }
    {
        self.file.is_some()
    }

    /// Whether one file alone may stand here, and is so long at least.
    pub(crate) fn reaches(&self, at: u64) -> bool
        ensures { result ≡ true → (f : Stored) × (self.now ≡ Some f ∷ []) × (at ≤ length f.bytes) }
    {
        match &self.file {
            Some(file) => self.doubts.is_empty() && at <= file.bytes().len() as u64,
            None => false,
        }
    }

    /// The bytes that reads give.
    pub(crate) fn bytes(&self) -> &[u8]
        ensures { result.now ≡ bytes_in (first_of self.now) }
    {
        match &self.file {
            Some(file) => file.bytes(),
            None => &[],
        }
    }

    /// What a crash leaves under the name.
    pub(crate) fn left(
        &self,
        alloc: Global,
        choice: &mut Choice,
    ) -> Result<Option<Octets>, OutOfMemory>
        ensures { IfOk result (LeavesOne self.now) }
    {
        if self.doubts.is_empty() {
            return left_of(&self.file, alloc, choice);
        }
        match choice.standing(self.doubts.len()) {
            0 => left_of(&self.file, alloc, choice),
            place => left_of(&self.doubts[place - 1], alloc, choice),
        }
    }
}

fn edit_all(files: &mut [Option<File>], alloc: Global, edit: Edit<'_>) -> Result<(), OutOfMemory>
    ensures { OnOk result (files.new ≡ map (on_file (edited edit.entry)) files.old) }
{
    for index in 0..files.len() {
        edit_if_there(&mut files[index], alloc, edit)?;
    }
    Ok(())
}
