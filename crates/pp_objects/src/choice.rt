// Which fields of a response are kept, and which a later response of the version renews.
ghost use Rattle.std.specs.Prelude.{◌≡◌, ◌<◌, [], length};
ghost use Rattle.pp_text.specs.Fields.{field_at};
ghost use Rattle.pp_valid.specs.Kept.{is_lasting_of, is_of_one_message, is_renewed, is_renewed_of};
ghost use Rattle.pp_objects.specs.Kept.{is_passing};
ghost use Rattle.pp_objects.specs.Texts.{is_chosen};

use pp_text::{Fields, is_forwarded, same};
use pp_valid::{is_of_one_message, is_renewed};

/// Which fields of a list.
#[derive(Clone, Copy)]
pub(crate) enum Choice {
    /// Of a response: those that are kept while the version lasts.
    Lasting,
    /// Of the kept ones: the same.
    Unchanged,
    /// Of a response: its Expires fields.
    NewExpires,
    /// Of a response: its Cache-Control fields.
    NewCacheControl,
    /// Of the kept ones: the Expires fields.
    KeptExpires,
    /// Of the kept ones: the Cache-Control fields.
    KeptCacheControl,
}

/// Whether the field at this place is chosen.
pub(crate) fn is_chosen(choice: Choice, fields: &Fields<'_, '_>, index: usize) -> bool
    requires { index < length fields.now }
    ensures { result ≡ is_chosen choice fields.now (field_at fields.now index) }
{
    let name = fields.name(index);
    match choice {
        Choice::Lasting => is_lasting_of(fields, index),
        Choice::Unchanged => !is_passing(name),
        Choice::NewExpires => is_renewed_of(fields, index) && same(b"expires", name),
        Choice::NewCacheControl => is_renewed_of(fields, index) && same(b"cache-control", name),
        Choice::KeptExpires => same(b"expires", name),
        Choice::KeptCacheControl => same(b"cache-control", name),
    }
}

fn is_lasting_of(fields: &Fields<'_, '_>, index: usize) -> bool
    requires { index < length fields.now }
    ensures { result ≡ is_lasting_of fields.now (field_at fields.now index) }
{
    let name = fields.name(index);
    is_forwarded(fields, index) && !(is_of_one_message(name) || is_renewed(name))
}

fn is_renewed_of(fields: &Fields<'_, '_>, index: usize) -> bool
    requires { index < length fields.now }
    ensures { result ≡ is_renewed_of fields.now (field_at fields.now index) }
{
    is_forwarded(fields, index) && is_renewed(fields.name(index))
}

fn is_passing(name: &[u8]) -> bool
    ensures { result ≡ is_passing (name.now, []) }
{
    same(b"date", name) || is_renewed(name)
}
