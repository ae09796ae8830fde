// The entries that are kept, and the closed names.
ghost use Rattle.std.specs.Prelude.{◌≡◌, ◌+◌, ◌≤◌, ◌<◌, ◌^◌, ◌-◌, ◌↔◌, ℕ, None, false, true, IfOk, IfSome, OnOk, OnErr, IsSome, length, min, option_map, filter, find, position};
ghost use Rattle.std.specs.Option.{option_copied};
ghost use Rattle.pp_target.specs.Name.{name_of};
ghost use Rattle.pp_store.specs.Kept.{HasOwnNames, IsExtent, is_closed, is_of, is_under, kept_of, kept_under, name_at, row_of};
ghost use Rattle.pp_store.specs.Answers.{is_full};
ghost use Rattle.pp_store.specs.Changes.{closed_once, entry_with, extended, lost, is_other, no_entries, with_closed, with_row, without};
ghost use Rattle.pp_store.specs.Held.{IsReadable};
ghost use Rattle.pp_store.specs.Views.{shown, site_of};

use crate::row::{KeptRow, KeptView, Site};
use crate::rows::Rows;
use pp_entry::Entry;
use pp_target::file_name;
use pp_text::OutOfMemory;
use pp_world::Name;
use std::alloc::Global;
use std::marker::Model;

/// How many names may be kept or closed before no entry is made.
const NAMES: usize = 10_000;

/// The entries that are kept on the disk, and the names that are closed. Contracts see both lists.
#[derive(Drop)]
pub struct Store {
    pub(crate) rows: Rows,
    pub(crate) closed: Vec<Name>,
}

impl Model for Store {
    ghost use Rattle.pp_store.specs.Kept.{KeptMap};

    ghost Value = { KeptMap };

    ghost use Rattle.pp_store.specs.Inside.{IsSound, map_in};

    ghost view = { map_in };

    ghost invariant = { IsSound };
}

impl Store {
    /// No entries and no closed names, and the room to close 10,000 names.
    pub fn new(alloc: Global) -> Result<Store, OutOfMemory>
        ensures { IfOk result (λ store. store ≡ no_entries) }
    {
        let closed = Vec::with_capacity(alloc, NAMES)?;
        Ok(Store {
            rows: Rows::new(alloc),
            closed,
        })
    }

    /// The entry that is kept of a key. `None` exactly where the key is not kept.
    pub fn kept(&self, key: &[u8]) -> Option<KeptView<'_>>
        ensures kept { option_map shown result ≡ kept_of key.now self.now }
        ensures sized { IfSome result (λ view. view.version.now.length ≤ 2 ^ 26) }
        ensures whole { IfSome result (λ view. IsExtent view.version.now.length view.extent) }
    {
        match self.rows.of(key) {
            Some(row) => Some(row.view()),
            None => None,
        }
    }

    /// The entry that is kept under a file name. `None` exactly where none is.
    pub fn under(&self, name: &Name) -> Option<KeptView<'_>>
        ensures under { option_map shown result ≡ kept_under name.now self.now }
        ensures sized { IfSome result (λ view. view.version.now.length ≤ 2 ^ 26) }
        ensures whole { IfSome result (λ view. IsExtent view.version.now.length view.extent) }
    {
        match self.rows.under(name) {
            Some(row) => Some(row.view()),
            None => None,
        }
    }

    /// How many entries are kept: at most `u32::MAX` are told.
    pub fn entries(&self) -> u32
        ensures entries { result ≡ min (length self.now.rows) (2 ^ 32 - 1) }
        ensures names { HasOwnNames self.now }
    {
        u32::try_from(self.rows.len()).unwrap_or(u32::MAX)
    }

    /// Whether an operation on this name failed.
    pub fn is_closed(&self, name: &Name) -> bool
        ensures { result ≡ is_closed name.now self.now }
    {
        self.closed
            .iter()
            .any(|other| other.as_slice() == name.as_slice())
    }

    /// Keeps an entry that was read, as an earlier life left it, with so many bytes of its body. Where
    /// memory is refused, all is as before.
    pub fn found(
        &mut self,
        alloc: Global,
        entry: &Entry<'_, '_>,
        extent: u64,
    ) -> Result<(), OutOfMemory>
        requires sized { entry.now.version.length ≤ 2 ^ 26 }
        requires whole { IsExtent entry.now.version.length extent }
        requires reads { IsReadable (entry_with entry.now.key.now entry.now.version entry.now.fields entry.now.times) }
        requires absent { kept_under (name_of entry.now.key.now) self.old ≡ None }
        requires sound { is_closed (name_of entry.now.key.now) self.old ≡ false }
        ensures ok { OnOk result (self.new ≡ with_row (entry_with entry.now.key.now entry.now.version entry.now.fields entry.now.times) extent self.old) }
        ensures err { OnErr result (self.new ≡ self.old) }
    {
        let name = file_name(entry.key);
        let row = KeptRow::new(
            alloc,
            &name,
            entry.key,
            &entry.version,
            &entry.fields,
            &entry.times,
            extent,
        )?;
        self.add(row)
    }

    /// Closes a name under which no entry is kept. Where memory is refused, all is as before.
    pub fn close(&mut self, name: &Name) -> Result<(), OutOfMemory>
        requires { kept_under name.now self.old ≡ None }
        ensures ok { OnOk result (self.new ≡ closed_once name.now self.old) }
        ensures err { OnErr result (self.new ≡ self.old) }
    {
        if self.is_closed(name) {
            return Ok(());
        }
        self.shut(name)
    }
}

impl Store {
    /// Whether no entry may be made.
    pub(crate) fn is_full(&self) -> bool
        ensures { result ≡ is_full self.now }
    {
        self.rows.len() + self.closed.len() >= NAMES
    }

    /// Where the entry of a key stands on the disk.
    pub(crate) fn site(&self, key: &[u8]) -> Site
        requires { IsSome (kept_of key.now self.now) }
        ensures site { result ≡ site_of (row_of key.now self.now) }
        ensures sized { result.length ≤ 2 ^ 26 }
        ensures whole { IsExtent result.length result.extent }
        ensures names { HasOwnNames self.now }
    {
        match self.rows.of(key) {
            Some(row) => row.site(),
            None => Site::NOWHERE,
        }
    }

    /// Keeps so many bytes of the entry of a key.
    pub(crate) fn extend_to(&mut self, key: &[u8], extent: u64)
        requires kept { IsSome (kept_of key.now self.old) }
        requires whole { IsExtent (row_of key.now self.old).entry.version.length extent }
        ensures { self.new ≡ extended key.now extent self.old }
    {
        self.rows.extend_to(key, extent);
    }

    /// Keeps the entry of a key no more.
    pub(crate) fn forget(&mut self, key: &[u8])
        requires { IsSome (kept_of key.now self.old) }
        ensures { self.new ≡ without key.now self.old }
    {
        self.rows.forget(key);
    }

    /// Keeps the entry of a key no more, and closes its name.
    pub(crate) fn lose(&mut self, key: &[u8])
        requires { IsSome (kept_of key.now self.old) }
        ensures { self.new ≡ lost key.now self.old }
    {
        self.rows.forget(key);
        self.closed.push_reserved(file_name(key));
    }

    fn add(&mut self, row: KeptRow) -> Result<(), OutOfMemory>
        requires absent { kept_under (name_at row) self.old ≡ None }
        requires sound { is_closed (name_at row) self.old ≡ false }
        ensures ok { OnOk result (self.new ≡ with_row row.entry row.extent self.old) }
        ensures err { OnErr result (self.new ≡ self.old) }
    {
        let more = self.rows.len() + 1;
        self.closed.reserve(more)?;
        self.rows.push(row)?;
        Ok(())
    }

    fn shut(&mut self, name: &Name) -> Result<(), OutOfMemory>
        requires absent { kept_under name.now self.old ≡ None }
        requires sound { is_closed name.now self.old ≡ false }
        ensures ok { OnOk result (self.new ≡ with_closed name.now self.old) }
        ensures err { OnErr result (self.new ≡ self.old) }
    {
        let more = self.rows.len() + 1;
        self.closed.reserve(more)?;
        self.closed.push_reserved(*name);
        Ok(())
    }
}
