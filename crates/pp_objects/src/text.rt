// Fields that stand behind one another in one text, with room for more.
ghost use Rattle.std.specs.Prelude.{◌≡◌, ◌+◌, ◌≤◌, ◌∷◌, [], length, vec_capacity, IfOk, OnOk, OnErr};
ghost use Rattle.pp_objects.specs.Texts.{AddsFields, AppendsField, HasRoomFor, IsEmptyText};

use pp_text::{FieldSpan, Fields, OutOfMemory};
use std::alloc::Global;
use std::marker::Model;

/// Owned fields. Contracts see the list of their names and values, and the room for more.
#[derive(Drop)]
pub(crate) struct KeptText {
    text: Vec<u8>,
    spans: Vec<FieldSpan>,
}

impl Model for KeptText {
    ghost use Rattle.std.specs.Prelude.{map, length, All, vec_capacity};
    ghost use Rattle.pp_text.specs.Fields.{field_in, IsFieldWithin};
    ghost use Rattle.pp_objects.specs.Texts.{FieldText};

    ghost Value = { FieldText };

    ghost view = { λ k. record { fields = map (field_in k.text.items) k.spans.items; used = length k.text.items; bytes = vec_capacity k.text; places = vec_capacity k.spans } };

    ghost invariant = { λ k. All (IsFieldWithin (length k.text.items)) k.spans.items };
}

impl KeptText {
    /// No fields, and room for so many bytes of names and values, and for so many fields.
    pub(crate) fn with_room(
        alloc: Global,
        bytes: usize,
        places: usize,
    ) -> Result<KeptText, OutOfMemory>
        ensures { IfOk result (λ text. IsEmptyText text bytes places) }
    {
        let text = Vec::with_capacity(alloc, bytes)?;
        let spans = Vec::with_capacity(alloc, places)?;
        Ok(KeptText { text, spans })
    }

    /// How many bytes the names and values have.
    pub(crate) fn used(&self) -> usize
        ensures { result ≡ self.now.used }
    {
        self.text.len()
    }

    /// How many fields there are.
    pub(crate) fn len(&self) -> usize
        ensures { result ≡ length self.now.fields }
    {
        self.spans.len()
    }

    /// The fields, over the text in which they are kept.
    pub(crate) fn fields(&self) -> Fields<'_, '_>
        ensures { result ≡ self.now.fields }
    {
        Fields::new(&self.text, &self.spans)
    }

    /// No fields, and all the room.
    pub(crate) fn clear(&mut self)
        ensures { self.new ≡ record self.old { fields = []; used = 0 } }
    {
        self.spans.clear();
        self.text.clear();
    }

    /// Takes room for so many bytes and fields more.
    pub(crate) fn reserve(&mut self, bytes: usize, places: usize) -> Result<(), OutOfMemory>
        ensures same { (self.new.fields ≡ self.old.fields) × (self.new.used ≡ self.old.used) }
        ensures bytes { OnOk result (self.old.used + bytes ≤ self.new.bytes) }
        ensures places { OnOk result (length self.old.fields + places ≤ self.new.places) }
    {
        self.text.reserve(bytes)?;
        self.spans.reserve(places)?;
        Ok(())
    }

    /// Adds a field. Fails only where there was no room for it.
    pub(crate) fn put(&mut self, name: &[u8], value: &[u8]) -> Result<(), OutOfMemory>
        ensures ok { OnOk result (AddsFields self.old self.new ((name.now, value.now) ∷ [])) }
        ensures full { OnErr result (HasRoomFor ((name.now, value.now) ∷ []) self.old → ⊥) }
    {
        self.spans.reserve(1)?;
        let span = append(&mut self.text, name, value)?;
        self.spans.push_reserved(span);
        Ok(())
    }
}

/// Puts name and value behind a text, and tells where. A text of 4 GiB finds no memory.
fn append(text: &mut Vec<u8>, name: &[u8], value: &[u8]) -> Result<FieldSpan, OutOfMemory>
    ensures ok { IfOk result (λ span. AppendsField text.old.items text.new.items name.now value.now span) }
    ensures err { OnErr result (text.new.items ≡ text.old.items) }
    ensures capacity { vec_capacity text.old ≤ vec_capacity text.new }
    ensures small { OnOk result (length text.new.items ≤ 4294967295) }
    ensures full { OnErr result (length text.old.items + length name.now + length value.now ≤ vec_capacity text.old → length text.old.items + length name.now + length value.now ≤ 4294967295 → ⊥) }
{
    let name_from = text.len();
    let name_to = name_from.checked_add(name.len()).ok_or(OutOfMemory)?;
    let value_to = name_to.checked_add(value.len()).ok_or(OutOfMemory)?;
    if value_to > u32::MAX as usize {
        return Err(OutOfMemory);
    }
    text.reserve(value_to - name_from)?;
    text.extend_from_slice(name)?;
    text.extend_from_slice(value)?;
    Ok(FieldSpan {
        name_from: name_from as u32,
        name_to: name_to as u32,
        value_from: name_to as u32,
        value_to: value_to as u32,
    })
}
