// The items of a comma list (RFC 2616, section 2.1, the rule "#element").
ghost use Rattle.std.specs.Prelude.{◌≡◌, ◌<◌, ◌∷◌, length, if◌then◌else◌};
ghost use Rattle.pp_text.specs.Bytes.{is_empty, trim};
ghost use Rattle.pp_text.specs.Lists.{items_of};
ghost use Rattle.std.specs.Iterator.{YieldsFirstRef, item_count};

use crate::blanks::trim;
use crate::quoting::Quoting;
use std::marker::Model;

/// The items of a comma list that are still to come. Contracts see the list of them.
///
/// A quoted string is kept whole, with its quotation marks and backslashes; spaces and tabs at an
/// item's ends are left out, and so are empty items.
#[derive(Drop)]
pub struct Items<'a> {
    rest: &'a [u8],
}

impl<'a> Model for Items<'a> {
    ghost use Rattle.std.specs.Prelude.{ℕ, List};
    ghost use Rattle.pp_text.specs.Lists.{items_of};

    ghost Value = { List (List ℕ) };

    ghost view = { λ i. items_of i.rest.now };
}

impl<'a> Items<'a> {
    /// The items of this comma list, all of them.
    pub fn new(text: &'a [u8]) -> Items<'a>
        ensures { result ≡ items_of text.now }
    {
        Items { rest: text }
    }
}

impl<'a> Iterator for Items<'a> {
    type Item = &'a [u8];

    ghost next_gives = { YieldsFirstRef (λ items. items) };

    ghost remaining = { item_count (λ items. items) };

    fn next(&mut self) -> Option<&'a [u8]> {
        while !self.rest.is_empty() {
            let (piece, rest) = split_piece(self.rest);
            self.rest = rest;
            let item = trim(piece);
            if !item.is_empty() {
                return Some(item);
            }
        }
        None
    }
}

/// The text before the first comma outside quoted strings, and that behind it.
fn split_piece(text: &[u8]) -> (&[u8], &[u8])
    ensures items { let item = trim result.0.now in
        items_of text.now ≡ (if is_empty item then items_of result.1.now else item ∷ items_of result.1.now) }
    ensures shorter { 0 < length text.now → length result.1.now < length text.now }
{
    let mut quoting = Quoting::Outside;
    for (index, byte) in text.iter().enumerate() {
        if *byte == b',' && quoting.is_outside() {
            return (&text[..index], &text[index + 1..]);
        }
        quoting = quoting.after(*byte);
    }
    (text, &[])
}
