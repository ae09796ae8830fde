// One entry in memory.
ghost use Rattle.std.specs.Prelude.{◌≡◌, ◌≤◌, ◌^◌, IfOk};
ghost use Rattle.pp_target.specs.Name.{name_of};
ghost use Rattle.pp_store.specs.Kept.{IsExtent, is_of, name_at};
ghost use Rattle.pp_store.specs.Changes.{entry_with, extended_to};
ghost use Rattle.pp_store.specs.Views.{shown, site_of};

use crate::text::RowText;
use pp_fresh::Times;
use pp_text::{Fields, OutOfMemory};
use pp_valid::Version;
use pp_world::Name;
use std::alloc::Global;
use std::marker::Model;

/// An entry that is kept, and how much of its body. Contracts see what its head block says, and the
/// extent.
#[derive(Drop)]
pub(crate) struct KeptRow {
    name: Name,
    text: RowText,
    version: Version,
    times: Times,
    extent: u64,
}

impl Model for KeptRow {
    ghost use Rattle.pp_store.specs.Kept.{Kept};

    ghost Value = { Kept };

    ghost use Rattle.pp_store.specs.Views.{IsRow, kept_in};

    ghost view = { kept_in };

    ghost invariant = { IsRow };
}

/// An entry that is kept, as it was given to `keep` or `found`.
///
/// On the disk the names of its fields are in lower case, and the time of the request is not told, nor
/// whether its lifetime may be guessed: a later life finds the time of the response, and guesses none.
#[derive(Drop)]
pub struct KeptView<'a> {
    pub key: &'a [u8],
    pub version: &'a Version,
    pub fields: Fields<'a, 'a>,
    pub times: Times,
    /// How many bytes of the body are kept, from the first on.
    pub extent: u64,
}

/// Where an entry stands on the disk.
#[derive(Clone, Copy)]
pub(crate) struct Site {
    pub(crate) name: Name,
    /// The bytes of the whole body.
    pub(crate) length: u64,
    /// The bytes of it that are kept.
    pub(crate) extent: u64,
}

impl Site {
    /// Of an entry that is not kept.
    pub(crate) const NOWHERE: Site = Site {
        name: [0; 32],
        length: 0,
        extent: 0,
    };
}

impl KeptRow {
    /// A copy of the parts of an entry. Its name is the file name of the key.
    pub(crate) fn new(
        alloc: Global,
        name: &Name,
        key: &[u8],
        version: &Version,
        fields: &Fields<'_, '_>,
        times: &Times,
        extent: u64,
    ) -> Result<KeptRow, OutOfMemory>
        requires named { name.now ≡ name_of key.now }
        requires sized { version.now.length ≤ 2 ^ 26 }
        requires whole { IsExtent version.now.length extent }
        ensures { IfOk result (λ row. row ≡ record { entry = entry_with key.now version.now fields.now times.now; extent = extent }) }
    {
        let text = RowText::copy(alloc, key, fields)?;
        Ok(KeptRow {
            name: *name,
            text,
            version: *version,
            times: *times,
            extent,
        })
    }

    pub(crate) fn name(&self) -> &Name
        ensures { result.now ≡ name_at self.now }
    {
        &self.name
    }

    pub(crate) fn is_of(&self, key: &[u8]) -> bool
        ensures { result ≡ is_of key.now self.now }
    {
        self.text.key() == key
    }

    pub(crate) fn view(&self) -> KeptView<'_>
        ensures shows { shown result ≡ self.now }
        ensures sized { self.now.entry.version.length ≤ 2 ^ 26 }
        ensures whole { IsExtent self.now.entry.version.length self.now.extent }
    {
        KeptView {
            key: self.text.key(),
            version: &self.version,
            fields: self.text.fields(),
            times: self.times,
            extent: self.extent,
        }
    }

    pub(crate) fn site(&self) -> Site
        ensures site { result ≡ site_of self.now }
        ensures sized { result.length ≤ 2 ^ 26 }
        ensures whole { IsExtent result.length result.extent }
    {
        Site {
            name: self.name,
            length: self.version.length,
            extent: self.extent,
        }
    }

    pub(crate) fn extend_to(&mut self, extent: u64)
        requires { IsExtent self.old.entry.version.length extent }
        ensures { self.new ≡ extended_to extent self.old }
    {
        self.extent = extent;
    }
}
