// The fields of a head (RFC 2616, section 4.2), each a name and a value of one text.
ghost use Rattle.std.specs.Prelude.{◌≡◌, ◌<◌, ◌↔◌, IsTrue, [], length, map, All, option_copied};
ghost use Rattle.pp_text.specs.Fields.{field_at, field_in, first_value, has_field, has_item, list_items, values_of, IsFieldWithin};

use crate::ascii::same;
use crate::field_items::FieldItems;
use crate::field_values::FieldValues;
use std::marker::Model;

/// Where a field's name and value stand in a text: half-open spans of byte offsets.
#[derive(Clone, Copy, Debug, PartialEq, Eq)]
pub struct FieldSpan {
    pub name_from: u32,
    pub name_to: u32,
    pub value_from: u32,
    /// The value has no spaces and tabs at its ends where a reader of heads made the span.
    pub value_to: u32,
}

impl FieldSpan {
    /// A span of nothing, to fill an array with.
    pub const EMPTY: FieldSpan = FieldSpan {
        name_from: 0,
        name_to: 0,
        value_from: 0,
        value_to: 0,
    };

    /// The name that stands here in this text.
    pub(crate) fn name<'a>(&self, text: &'a [u8]) -> &'a [u8]
        requires { IsFieldWithin (length text.now) self.now }
        ensures { result.now ≡ (field_in text.now self.now).0 }
    {
        &text[self.name_from as usize..self.name_to as usize]
    }

    /// The value that stands here in this text.
    pub(crate) fn value<'a>(&self, text: &'a [u8]) -> &'a [u8]
        requires { IsFieldWithin (length text.now) self.now }
        ensures { result.now ≡ (field_in text.now self.now).1 }
    {
        &text[self.value_from as usize..self.value_to as usize]
    }
}

/// The fields of a head, in their order. Contracts see the list of their names and values.
#[derive(Drop)]
pub struct Fields<'a, 's> {
    text: &'a [u8],
    spans: &'s [FieldSpan],
}

impl<'a, 's> Model for Fields<'a, 's> {
    ghost use Rattle.std.specs.Prelude.{ℕ, List, map, length, All};
    ghost use Rattle.pp_text.specs.Fields.{field_in, IsFieldWithin};

    ghost Value = { List (List ℕ × List ℕ) };

    ghost view = { λ f. map (field_in f.text.now) f.spans.now };

    ghost invariant = { λ f. All (IsFieldWithin (length f.text.now)) f.spans.now };
}

impl<'a, 's> Fields<'a, 's> {
    /// The fields that stand at these spans of the text.
    pub fn new(text: &'a [u8], spans: &'s [FieldSpan]) -> Fields<'a, 's>
        requires { All (IsFieldWithin (length text.now)) spans.now }
        ensures { result ≡ map (field_in text.now) spans.now }
    {
        Fields { text, spans }
    }

    pub fn len(&self) -> usize
        ensures { result ≡ length self.now }
    {
        self.spans.len()
    }

    pub fn is_empty(&self) -> bool
        ensures { IsTrue result ↔ (self.now ≡ []) }
    {
        self.spans.is_empty()
    }

    /// The name of the field at this place.
    pub fn name(&self, index: usize) -> &'a [u8]
        requires { index < length self.now }
        ensures { result.now ≡ (field_at self.now index).0 }
    {
        let spans = self.spans;
        spans[index].name(self.text)
    }

    /// The value of the field at this place.
    pub fn value(&self, index: usize) -> &'a [u8]
        requires { index < length self.now }
        ensures { result.now ≡ (field_at self.now index).1 }
    {
        let spans = self.spans;
        spans[index].value(self.text)
    }

    /// The values of the fields of this name, in their order. Names are compared but for ASCII case.
    pub fn values<'n>(&self, name: &'n [u8]) -> FieldValues<'a, 's, 'n>
        ensures { result ≡ values_of name.now self.now }
    {
        FieldValues::new(
            name,
            Fields {
                text: self.text,
                spans: self.spans,
            },
        )
    }

    /// The value of the first field of this name.
    pub fn first(&self, name: &[u8]) -> Option<&'a [u8]>
        ensures { option_copied result ≡ first_value name.now self.now }
    {
        self.values(name).next()
    }

    /// How many fields have this name.
    pub fn count(&self, name: &[u8]) -> usize
        ensures { result ≡ length (values_of name.now self.now) }
    {
        let mut count = 0;
        for index in 0..self.len() {
            if same(name, self.name(index)) {
                count += 1;
            }
        }
        count
    }

    /// Whether a field has this name.
    pub fn has(&self, name: &[u8]) -> bool
        ensures { result ≡ has_field name.now self.now }
    {
        self.first(name).is_some()
    }

    /// The items of the comma lists of all fields of this name, in the order of the fields: one
    /// list may be spread over several of them (section 4.2).
    pub fn items<'n>(&self, name: &'n [u8]) -> FieldItems<'a, 's, 'n>
        ensures { result ≡ list_items name.now self.now }
    {
        FieldItems::new(self.values(name))
    }

    /// Whether the comma list over all fields of this name has the item, but for ASCII case.
    pub fn has_item(&self, name: &[u8], item: &[u8]) -> bool
        ensures { result ≡ has_item name.now item.now self.now }
    {
        self.items(name).any(|other| same(item, other))
    }
}
