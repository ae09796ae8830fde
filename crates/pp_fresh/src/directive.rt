// One directive of a Cache-Control field (RFC 2616, section 14.9).
ghost use Rattle.std.specs.Prelude.{◌≡◌, if◌then◌else◌, unwrap_or};
ghost use Rattle.pp_text.specs.Bytes.{is_same};
ghost use Rattle.pp_text.specs.Numbers.{number_of};
ghost use Rattle.pp_fresh.specs.Directives.{argument_of, name_of};

use pp_text::{cut, read_u64, same, trim};

/// An item of the list, in two.
#[derive(Clone, Copy)]
pub struct Directive<'a> {
    pub name: &'a [u8],
    /// Empty where there is none.
    pub argument: &'a [u8],
}

impl<'a> Directive<'a> {
    pub fn read(item: &'a [u8]) -> Directive<'a>
        ensures name { result.name.now ≡ name_of item.now }
        ensures argument { result.argument.now ≡ argument_of item.now }
    {
        let (name, argument) = cut(item, b'=').unwrap_or((item, &[]));
        Directive {
            name: trim(name),
            argument: trim(argument),
        }
    }

    pub fn is(self, name: &[u8]) -> bool
        ensures { result ≡ is_same name.now self.entry.name.now }
    {
        same(name, self.name)
    }

    /// The number of this directive, if it has this name.
    pub fn seconds(self, name: &[u8]) -> Option<u64>
        ensures { result ≡ (if is_same name.now self.entry.name.now then Some (unwrap_or (number_of self.entry.argument.now) 0) else None) }
    {
        if !self.is(name) {
            return None;
        }
        Some(read_u64(self.argument).unwrap_or(0))
    }
}
