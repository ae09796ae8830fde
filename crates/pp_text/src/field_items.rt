// The items of the comma lists of all fields of a name (RFC 2616, section 4.2).
ghost use Rattle.std.specs.Prelude.{◌≡◌, flat_map};
ghost use Rattle.std.specs.Iterator.{YieldsFirstRef, item_count};
ghost use Rattle.pp_text.specs.Lists.{items_of};

use crate::field_values::FieldValues;
use crate::items::Items;
use std::marker::Model;

/// The items of the comma lists of all fields of a name that are still to come, in the order of
/// the fields. Contracts see the list of them.
#[derive(Drop)]
pub struct FieldItems<'a, 's, 'n> {
    items: Items<'a>,
    values: FieldValues<'a, 's, 'n>,
}

impl<'a, 's, 'n> Model for FieldItems<'a, 's, 'n> {
    ghost use Rattle.std.specs.Prelude.{ℕ, List, ◌++◌, flat_map};
    ghost use Rattle.pp_text.specs.Lists.{items_of};

    ghost Value = { List (List ℕ) };

    ghost view = { λ i. i.items ++ flat_map items_of i.values };
}

impl<'a, 's, 'n> FieldItems<'a, 's, 'n> {
    pub(crate) fn new(values: FieldValues<'a, 's, 'n>) -> FieldItems<'a, 's, 'n>
        ensures { result ≡ flat_map items_of values.entry }
    {
        FieldItems {
            items: Items::new(&[]),
            values,
        }
    }
}

impl<'a, 's, 'n> Iterator for FieldItems<'a, 's, 'n> {
    type Item = &'a [u8];

    ghost next_gives = { YieldsFirstRef (λ items. items) };

    ghost remaining = { item_count (λ items. items) };

    fn next(&mut self) -> Option<&'a [u8]> {
        loop {
            match self.items.next() {
                Some(item) => return Some(item),
                None => self.items = Items::new(self.values.next()?),
            }
        }
    }
}
