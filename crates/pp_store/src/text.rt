// A key and fields that stand behind one another in one text.
ghost use Rattle.std.specs.Prelude.{◌≡◌, ◌+◌, ◌≤◌, ◌++◌, ◌∷◌, [], length, IfOk, OnOk, OnErr};
ghost use Rattle.pp_store.specs.Texts.{AppendsField};

use pp_text::{FieldSpan, Fields, OutOfMemory};
use std::alloc::Global;
use std::marker::Model;

/// An owned key, and owned fields.
#[derive(Drop)]
pub(crate) struct RowText {
    text: Vec<u8>,
    key_len: usize,
    spans: Vec<FieldSpan>,
}

impl Model for RowText {
    ghost use Rattle.std.specs.Prelude.{◌≤◌, map, length, take, All};
    ghost use Rattle.pp_text.specs.Fields.{field_in, IsFieldWithin};
    ghost use Rattle.pp_store.specs.Texts.{KeyAndFields};

    ghost Value = { KeyAndFields };

    ghost view = { λ t. record { key = take t.key_len t.text.items; fields = map (field_in t.text.items) t.spans.items } };

    ghost invariant = { λ t. (t.key_len ≤ length t.text.items) × All (IsFieldWithin (length t.text.items)) t.spans.items };
}

impl RowText {
    /// A copy of a key and of these fields.
    pub(crate) fn copy(
        alloc: Global,
        key: &[u8],
        fields: &Fields<'_, '_>,
    ) -> Result<RowText, OutOfMemory>
        ensures { IfOk result (λ text. text ≡ record { key = key.now; fields = fields.now }) }
    {
        let mut text = RowText::with_room(alloc, key, size_of(key, fields), fields.len())?;
        for index in 0..fields.len() {
            text.put(fields.name(index), fields.value(index))?;
        }
        Ok(text)
    }

    pub(crate) fn key(&self) -> &[u8]
        ensures { result.now ≡ self.now.key }
    {
        &self.text[..self.key_len]
    }

    pub(crate) fn fields(&self) -> Fields<'_, '_>
        ensures { result ≡ self.now.fields }
    {
        Fields::new(&self.text, &self.spans)
    }

    /// A key without fields, and room for so many bytes and fields.
    fn with_room(
        alloc: Global,
        key: &[u8],
        bytes: usize,
        places: usize,
    ) -> Result<RowText, OutOfMemory>
        ensures { IfOk result (λ text. text ≡ record { key = key.now; fields = [] }) }
    {
        let mut text = Vec::with_capacity(alloc, bytes)?;
        let spans = Vec::with_capacity(alloc, places)?;
        text.extend_from_slice(key)?;
        Ok(RowText {
            text,
            key_len: key.len(),
            spans,
        })
    }

    /// Adds a field.
    fn put(&mut self, name: &[u8], value: &[u8]) -> Result<(), OutOfMemory>
        ensures { OnOk result (self.new ≡ record self.old { fields = self.old.fields ++ (name.now, value.now) ∷ [] }) }
    {
        self.spans.reserve(1)?;
        let span = append(&mut self.text, name, value)?;
        self.spans.push_reserved(span);
        Ok(())
    }
}

/// How many bytes a key and these fields have together.
fn size_of(key: &[u8], fields: &Fields<'_, '_>) -> usize {
    let mut size = key.len();
    for index in 0..fields.len() {
        let field = fields
            .name(index)
            .len()
            .saturating_add(fields.value(index).len());
        size = size.saturating_add(field);
    }
    size
}

/// Puts name and value behind a text, and tells where. A text of 4 GiB finds no memory.
fn append(text: &mut Vec<u8>, name: &[u8], value: &[u8]) -> Result<FieldSpan, OutOfMemory>
    ensures ok { IfOk result (λ span. AppendsField text.old.items text.new.items name.now value.now span) }
    ensures err { OnErr result (text.new.items ≡ text.old.items) }
{
    let name_from = text.len();
    let name_to = name_from.checked_add(name.len()).ok_or(OutOfMemory)?;
    let value_to = name_to.checked_add(value.len()).ok_or(OutOfMemory)?;
    if value_to > u32::MAX as usize {
        return Err(OutOfMemory);
    }
    text.reserve(value_to - name_from)?;
    text.extend_from_slice(name)?;
    text.extend_from_slice(value)?;
    Ok(FieldSpan {
        name_from: name_from as u32,
        name_to: name_to as u32,
        value_from: name_to as u32,
        value_to: value_to as u32,
    })
}
