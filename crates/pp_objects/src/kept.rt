// The fields of a row, and the room for a refresh of them.
ghost use Rattle.std.specs.Prelude.{◌≡◌, ◌≤◌, IfOk, length, true};
ghost use Rattle.pp_objects.specs.Kept.{has_room, kept_of, refreshed_of};

use crate::choice::Choice;
use crate::renewal::{put_chosen, put_refreshed, put_renewal};
use crate::room::RENEWED_ROOM;
use crate::text::KeptText;
use pp_fresh::Times;
use pp_text::{Fields, OutOfMemory};
use std::alloc::Global;
use std::marker::Model;
use std::mem;

/// The fields of so many lines: each has at least 8 bytes.
const RENEWED_PLACES: usize = 256;

/// The fields that are kept of the responses of a version, and a second text of the same room, into which a
/// refresh is written. Contracts see the fields.
#[derive(Drop)]
pub(crate) struct KeptFields {
    shown: KeptText,
    spare: KeptText,
}

impl Model for KeptFields {
    ghost use Rattle.std.specs.Prelude.{List};
    ghost use Rattle.pp_text.specs.Fields.{Field};
    ghost use Rattle.pp_objects.specs.Texts.{HoldsRefresh};

    ghost Value = { List Field };

    ghost view = { λ k. k.shown.fields };

    ghost invariant = { λ k. HoldsRefresh k.shown.fields k.shown × HoldsRefresh k.shown.fields k.spare };
}

impl KeptFields {
    /// What is kept of the response that makes a row, and the room for a refresh.
    pub(crate) fn of(
        alloc: Global,
        fields: &Fields<'_, '_>,
        times: Times,
    ) -> Result<KeptFields, OutOfMemory>
        ensures { IfOk result (λ k. k ≡ kept_of fields.now times) }
    {
        let mut shown = KeptText::with_room(alloc, 0, 0)?;
        put_chosen(&mut shown, Choice::Lasting, fields)?;
        let (used, count) = (shown.used(), shown.len());
        if used > u32::MAX as usize - RENEWED_ROOM {
            return Err(OutOfMemory);
        }
        shown.reserve(RENEWED_ROOM, RENEWED_PLACES)?;
        let spare = KeptText::with_room(alloc, used + RENEWED_ROOM, count + RENEWED_PLACES)?;
        let none = Fields::new(&[], &[]);
        put_renewal(&mut shown, &none, fields, times)?;
        Ok(KeptFields { shown, spare })
    }

    /// The fields, over the text in which they are kept.
    pub(crate) fn fields(&self) -> Fields<'_, '_>
        ensures { result ≡ self.now }
    {
        self.shown.fields()
    }

    /// Renews what a later response of the version says anew, in the room that is there.
    pub(crate) fn refresh(&mut self, fields: &Fields<'_, '_>, times: Times)
        requires { has_room self.old fields.now times ≡ true }
        ensures { self.new ≡ refreshed_of self.old fields.now times }
    {
        self.spare.clear();
        if put_refreshed(&mut self.spare, &self.shown.fields(), fields, times).is_err() {
            return;
        }
        mem::swap(&mut self.shown, &mut self.spare);
    }
}
