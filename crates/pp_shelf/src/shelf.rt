// The entries that are kept.
ghost use Rattle.std.specs.Prelude.{◌≡◌, option_map};
ghost use Rattle.pp_store.specs.Kept.{kept_of, kept_under};
ghost use Rattle.pp_store.specs.Views.{shown};

use pp_store::{KeptView, Store};
use pp_world::Name;
use std::marker::Model;

/// The entries on the disk. Contracts see the map of the store.
#[derive(Drop)]
pub struct Shelf {
    pub(crate) store: Store,
}

impl Model for Shelf {
    ghost use Rattle.pp_store.specs.Kept.{KeptMap};

    ghost Value = { KeptMap };

    ghost view = { λ s. s.store };
}

impl Shelf {
    /// The entries of this store.
    pub fn new(store: Store) -> Shelf
        ensures { result ≡ store }
    {
        Shelf { store }
    }

    /// The entry that is kept of a key. `None` exactly where the key is not kept.
    pub fn kept(&self, key: &[u8]) -> Option<KeptView<'_>>
        ensures { option_map shown result ≡ kept_of key.now self.now }
    {
        self.store.kept(key)
    }

    /// The entry that is kept under a file name. `None` exactly where none is.
    pub fn under(&self, name: &Name) -> Option<KeptView<'_>>
        ensures { option_map shown result ≡ kept_under name.now self.now }
    {
        self.store.under(name)
    }
}
