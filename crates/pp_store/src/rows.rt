// The entries in the order in which they came, and a table of their names.
ghost use Rattle.std.specs.Prelude.{◌≡◌, ◌++◌, ◌∷◌, ◌-◌, ◌≤◌, [], Some, None, IsSome, OnOk, OnErr, cond, count_by, filter, find, length, map, take, unwrap_or};
ghost use Rattle.std.specs.Option.{option_copied};
ghost use Rattle.pp_store.specs.Changes.{extended_to, is_other};
ghost use Rattle.pp_store.specs.Kept.{IsExtent, is_of, is_under, name_at, no_row};

use crate::places::{Places, leave, put};
use crate::row::KeptRow;
use pp_target::file_name;
use pp_text::OutOfMemory;
use pp_world::Name;
use std::alloc::Global;
use std::marker::Model;

/// Entries of which no two have one name. Contracts see the list of them.
#[derive(Drop)]
pub(crate) struct Rows {
    list: Vec<KeptRow>,
    places: Places,
}

impl Model for Rows {
    ghost use Rattle.std.specs.Prelude.{List};
    ghost use Rattle.pp_store.specs.Kept.{Kept};
    ghost use Rattle.pp_store.specs.Table.{IsTable, rows_in};

    ghost Value = { List Kept };

    ghost view = { rows_in };

    ghost invariant = { IsTable };
}

impl Rows {
    pub(crate) fn new(alloc: Global) -> Rows
        ensures { result ≡ [] }
    {
        Rows {
            list: Vec::new(alloc),
            places: Places::new(alloc),
        }
    }

    pub(crate) fn len(&self) -> usize
        ensures { result ≡ length self.now }
    {
        self.list.len()
    }

    /// The entry under a name.
    pub(crate) fn under(&self, name: &Name) -> Option<&KeptRow>
        ensures under { option_copied result ≡ find (is_under name.now) self.now }
        ensures alone { count_by (is_under name.now) self.now ≤ 1 }
    {
        match self.places.get(name) {
            Some(place) => Some(&self.list[*place]),
            None => None,
        }
    }

    /// The entry of a key: that under the key's name, or none.
    pub(crate) fn of(&self, key: &[u8]) -> Option<&KeptRow>
        ensures { option_copied result ≡ find (is_of key.now) self.now }
    {
        match self.under(&file_name(key)) {
            Some(row) => row_if(row.is_of(key), row),
            None => None,
        }
    }

    /// Puts an entry behind the others. Where memory is refused, all is as before.
    pub(crate) fn push(&mut self, row: KeptRow) -> Result<(), OutOfMemory>
        requires { find (is_under (name_at row)) self.old ≡ None }
        ensures ok { OnOk result (self.new ≡ self.old ++ row ∷ []) }
        ensures err { OnErr result (self.new ≡ self.old) }
    {
        self.list.reserve(1)?;
        put(&mut self.places, row.name(), self.list.len())?;
        self.list.push_reserved(row);
        Ok(())
    }

    /// Takes out the entry that came last.
    pub(crate) fn pop(&mut self)
        ensures { self.new ≡ take (length self.old - 1) self.old }
    {
        if let Some(row) = self.list.pop() {
            self.places.remove(row.name());
        }
    }

    /// Keeps so many bytes of the entry of a key.
    pub(crate) fn extend_to(&mut self, key: &[u8], extent: u64)
        requires kept { IsSome (find (is_of key.now) self.old) }
        requires whole { IsExtent (unwrap_or (find (is_of key.now) self.old) no_row).entry.version.length extent }
        ensures { self.new ≡ map (λ row. cond (is_of key.now row) (extended_to extent row) row) self.old }
    {
        let Some(place) = self.places.get(&file_name(key)) else {
            return;
        };
        let row = &mut self.list[*place];
        row.extend_to(extent);
    }

    /// Takes out the entry of a key. Those behind it move up.
    pub(crate) fn forget(&mut self, key: &[u8])
        requires { IsSome (find (is_of key.now) self.old) }
        ensures { self.new ≡ filter (is_other key.now) self.old }
    {
        leave(&mut self.places, &file_name(key));
        self.list.retain(|row| !row.is_of(key));
    }
}

fn row_if(is_wanted: bool, row: &KeptRow) -> Option<&KeptRow>
    ensures { option_copied result ≡ cond is_wanted (Some row.now) None }
{
    if is_wanted { Some(row) } else { None }
}
