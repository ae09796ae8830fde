// The values of the fields of a name (RFC 2616, section 4.2).
ghost use Rattle.std.specs.Prelude.{◌≡◌};
ghost use Rattle.std.specs.Iterator.{YieldsFirstRef, item_count};
ghost use Rattle.pp_text.specs.Fields.{values_of};

use crate::ascii::same;
use crate::fields::Fields;
use std::marker::Model;

/// The values of the fields of a name that are still to come, in the order of the fields.
/// Contracts see the list of them.
#[derive(Drop)]
pub struct FieldValues<'a, 's, 'n> {
    name: &'n [u8],
    fields: Fields<'a, 's>,
    next: usize,
}

impl<'a, 's, 'n> Model for FieldValues<'a, 's, 'n> {
    ghost use Rattle.std.specs.Prelude.{ℕ, List, drop};
    ghost use Rattle.pp_text.specs.Fields.{values_of};

    ghost Value = { List (List ℕ) };

    ghost view = { λ v. values_of v.name.now (drop v.next v.fields) };
}

impl<'a, 's, 'n> FieldValues<'a, 's, 'n> {
    pub(crate) fn new(name: &'n [u8], fields: Fields<'a, 's>) -> FieldValues<'a, 's, 'n>
        ensures { result ≡ values_of name.now fields.entry }
    {
        FieldValues {
            name,
            fields,
            next: 0,
        }
    }
}

impl<'a, 's, 'n> Iterator for FieldValues<'a, 's, 'n> {
    type Item = &'a [u8];

    ghost next_gives = { YieldsFirstRef (λ values. values) };

    ghost remaining = { item_count (λ values. values) };

    fn next(&mut self) -> Option<&'a [u8]> {
        while self.next < self.fields.len() {
            let index = self.next;
            self.next += 1;
            if same(self.name, self.fields.name(index)) {
                return Some(self.fields.value(index));
            }
        }
        None
    }
}
