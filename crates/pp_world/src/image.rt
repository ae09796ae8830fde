// The files of a folder, by name.
ghost use Rattle.std.specs.Prelude.{◌≡◌, [], OnOk, OnErr, ℕ, List};
ghost use Rattle.std.specs.Option.{option_copied};
ghost use Rattle.pp_world.specs.Files.{SetsFile, file_of, next_name, with_file};

use pp_text::{Octets, OutOfMemory};
use std::alloc::Global;
use std::collections::BTreeMap;
use std::marker::Model;
use std::ops::Bound;

/// The name of a file: 32 bytes.
pub type Name = [u8; 32];

/// The files of a folder. Contracts see the list of names and contents, in the order of names.
#[derive(Drop)]
pub struct Image {
    files: BTreeMap<Name, Octets>,
}

impl Model for Image {
    ghost use Rattle.std.specs.Prelude.{ℕ, List};

    ghost Value = { List (List ℕ × List ℕ) };

    ghost view = { λ i. i.files.entries };
}

impl Image {
    /// No files.
    pub fn new(alloc: Global) -> Image
        ensures { result ≡ [] }
    {
        Image {
            files: BTreeMap::new(alloc),
        }
    }

    /// Sets the file of one name, and changes no other.
    pub fn put(&mut self, name: Name, file: Octets) -> Result<(), OutOfMemory>
        ensures ok { OnOk result (self.new ≡ with_file name file self.old) }
        ensures map { OnOk result (SetsFile name file self.old self.new) }
        ensures err { OnErr result (self.new ≡ self.old) }
    {
        match self.files.insert(name, file) {
            Ok(_) => Ok(()),
            Err(_) => Err(OutOfMemory),
        }
    }

    /// The file of this name, if there is one.
    pub fn get(&self, name: &Name) -> Option<&Octets>
        ensures { option_copied result ≡ file_of name.now self.now }
    {
        self.files.get(name)
    }

    /// The least name above `after`, or the least of all without one, if there is such a name.
    pub fn next_name(&self, after: Option<&Name>) -> Option<&Name>
        ensures { option_copied result ≡ next_name (option_copied after.entry) self.now }
    {
        let start = match after {
            Some(name) => Bound::Excluded(*name),
            None => Bound::Unbounded,
        };
        match self.files.range((start, Bound::Unbounded)).next() {
            Some((name, _)) => Some(name),
            None => None,
        }
    }
}
