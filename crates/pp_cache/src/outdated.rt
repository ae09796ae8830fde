// The file names of keys whose entry on the disk stands for its row no more.
ghost use Rattle.std.specs.Prelude.{◌≡◌, ◌-◌, ◌++◌, [], IfOk, bytes_eq, length, take};
ghost use Rattle.std.specs.List.{list_any};
ghost use Rattle.std.specs.Option.{option_to_list};
ghost use Rattle.pp_cache.specs.OnDisk.{outdated_by};

use pp_text::OutOfMemory;
use pp_world::Name;
use std::alloc::Global;
use std::marker::Model;

/// Ours: so many are noted in a turn. A read brings at most 8 responses, each of which outdates at most 102 keys, and each of
/// 1,024 exchanges may give up the row of its key.
const MOST: usize = 2048;

/// Names, each once, in room that is there from the beginning.
#[derive(Drop)]
pub(crate) struct Outdated {
    names: Vec<Name>,
}

impl Model for Outdated {
    ghost use Rattle.std.specs.Prelude.{ℕ, ◌≤◌, List, vec_capacity};

    ghost Value = { List (List ℕ) };

    ghost view = { λ o. o.names.items };

    ghost invariant = { λ o. 2048 ≤ vec_capacity o.names };
}

impl Outdated {
    /// None, and the room for all.
    pub(crate) fn new(alloc: Global) -> Result<Outdated, OutOfMemory>
        ensures { IfOk result (λ outdated. outdated ≡ []) }
    {
        Ok(Outdated {
            names: Vec::with_capacity(alloc, MOST)?,
        })
    }

    /// How many there are.
    pub(crate) fn len(&self) -> usize
        ensures { result ≡ length self.now }
    {
        self.names.len()
    }

    /// Whether this name is noted.
    pub(crate) fn has(&self, name: &Name) -> bool
        ensures { result ≡ list_any (bytes_eq name.now) self.now }
    {
        self.names
            .iter()
            .any(|other| name.as_slice() == other.as_slice())
    }

    /// Notes a name, where it is not noted yet.
    pub(crate) fn note(&mut self, name: Name)
        ensures { self.new ≡ outdated_by name self.old }
    {
        if !self.has(&name) && self.names.len() < MOST {
            self.names.push_reserved(name);
        }
    }

    /// The last that was noted: it is forgotten with that.
    pub(crate) fn next(&mut self) -> Option<Name>
        ensures last { self.old ≡ self.new ++ option_to_list result }
        ensures rest { self.new ≡ take (length self.old - 1) self.old }
    {
        self.names.pop()
    }
}
