// Parts of a text, and the one field of a name.
ghost use Rattle.std.specs.Prelude.{◌≡◌, ◌==◌, position, option_copied, option_map};
ghost use Rattle.pp_text.specs.Fields.{values_of};
ghost use Rattle.pp_text.specs.Lists.{items_of};
ghost use Rattle.pp_text.specs.Parts.{cut_at, sole};

use crate::fields::Fields;
use crate::items::Items;

/// The text before the first such byte, and that behind it: None where there is no such byte.
pub fn cut(text: &[u8], byte: u8) -> Option<(&[u8], &[u8])>
    ensures { option_map (λ cut. (cut.0.now, cut.1.now)) result ≡ cut_at byte text.now }
{
    let at = index_of(text, byte)?;
    Some((&text[..at], &text[at + 1..]))
}

fn index_of(text: &[u8], byte: u8) -> Option<usize>
    ensures { result ≡ position (λ b. b == byte) text.now }
{
    text.iter().position(|b| *b == byte)
}

/// The value of the field of this name: None where there is none, or more than one.
pub fn sole_value<'a>(fields: &Fields<'a, '_>, name: &[u8]) -> Option<&'a [u8]>
    ensures { option_copied result ≡ sole (values_of name.now fields.now) }
{
    if fields.count(name) != 1 {
        return None;
    }
    fields.first(name)
}

/// The one item of a comma list: None where there is none, or more than one.
pub fn sole_item(text: &[u8]) -> Option<&[u8]>
    ensures { option_copied result ≡ sole (items_of text.now) }
{
    let mut items = Items::new(text);
    let item = items.next()?;
    if items.next().is_some() {
        return None;
    }
    Some(item)
}
