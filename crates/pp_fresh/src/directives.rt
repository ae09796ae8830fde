// What the Cache-Control fields say together (RFC 2616, section 14.9).
ghost use Rattle.std.specs.Prelude.{◌≡◌, fold};
ghost use Rattle.std.specs.List.{list_any};
ghost use Rattle.pp_text.specs.Quoting.{quoting_after};
ghost use Rattle.pp_text.specs.declared.quoting.Quoting.TheVariants.{Outside};
ghost use Rattle.pp_fresh.specs.Directives.{directives_of, is_cut_off, listed};
ghost use Rattle.pp_fresh.specs.Joining.{joined, lesser, no_directives};

use crate::directive::Directive;
use pp_text::{FieldItems, FieldValues, Fields, Quoting};

/// The directives of a message that this cache heeds, over all its Cache-Control fields.
///
/// A directive with field names, as `no-cache="set-cookie"`, counts as one without. Of several
/// numbers the least counts, and one that cannot be read counts as 0. A field that ends within a
/// quoted string counts as `no-store`.
#[derive(Clone, Copy, Debug, PartialEq, Eq)]
pub struct Directives {
    pub no_store: bool,
    pub no_cache: bool,
    pub private: bool,
    pub only_if_cached: bool,
    /// Seconds.
    pub max_age: Option<u64>,
    /// Seconds.
    pub s_maxage: Option<u64>,
    /// Seconds.
    pub min_fresh: Option<u64>,
}

impl Directives {
    const NONE: Directives = Directives {
        no_store: false,
        no_cache: false,
        private: false,
        only_if_cached: false,
        max_age: None,
        s_maxage: None,
        min_fresh: None,
    };

    /// The directives of these fields.
    pub fn read(fields: &Fields) -> Directives
        ensures { result ≡ directives_of fields.now }
    {
        let directives = Directives::listed(fields.items(b"cache-control"));
        Directives {
            no_store: directives.no_store | has_cut_off(fields.values(b"cache-control")),
            ..directives
        }
    }

    fn listed(items: FieldItems) -> Directives
        ensures { result ≡ listed items.entry }
    {
        Directives::join(items)
    }

    fn join(items: FieldItems) -> Directives
        ensures { result ≡ fold joined no_directives items.entry }
    {
        items.fold(Directives::NONE, |directives, item| directives.with(item))
    }

    /// These directives and one more.
    fn with(self, item: &[u8]) -> Directives
        ensures { result ≡ joined self item.now }
    {
        let directive = Directive::read(item);
        Directives {
            no_store: self.no_store | directive.is(b"no-store"),
            no_cache: self.no_cache | directive.is(b"no-cache"),
            private: self.private | directive.is(b"private"),
            only_if_cached: self.only_if_cached | directive.is(b"only-if-cached"),
            max_age: lesser(self.max_age, directive.seconds(b"max-age")),
            s_maxage: lesser(self.s_maxage, directive.seconds(b"s-maxage")),
            min_fresh: lesser(self.min_fresh, directive.seconds(b"min-fresh")),
        }
    }
}

/// Whether a value ends within a quoted string.
fn has_cut_off(mut values: FieldValues) -> bool
    ensures { result ≡ list_any is_cut_off values.entry }
{
    values.any(is_cut_off)
}

fn is_cut_off(value: &[u8]) -> bool
    ensures { result ≡ is_cut_off value.now }
{
    !quoting_behind(value).is_outside()
}

/// Where a byte behind this text stands.
fn quoting_behind(text: &[u8]) -> Quoting
    ensures { result ≡ fold quoting_after Outside text.now }
{
    text.iter()
        .fold(Quoting::Outside, |quoting, byte| quoting.after(*byte))
}

/// The lesser of two numbers of which either may be missing.
fn lesser(a: Option<u64>, b: Option<u64>) -> Option<u64>
    ensures { result ≡ lesser a b }
{
    match (a, b) {
        (Some(a), Some(b)) => Some(a.min(b)),
        (Some(a), None) => Some(a),
        (None, b) => b,
    }
}
