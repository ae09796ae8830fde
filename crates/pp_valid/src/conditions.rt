// Conditions of a request (RFC 7232, sections 3.2 and 3.3; RFC 7233, section 3.2).
ghost use Rattle.std.specs.Prelude.{◌≡◌, not};
ghost use Rattle.std.specs.List.{list_any};
ghost use Rattle.pp_valid.specs.Conditions.{if_range_holds, is_listed, is_weakly_equal, matches_none, names_other_tag, not_modified_since};

use crate::end_to_end::is_dropped;
use crate::tag::{Tag, opaque_part};
use pp_fresh::date_of;
use pp_text::{FieldItems, FieldValues, Fields};

/// Whether If-None-Match has this tag, by weak comparison, or is `*`: None without that field. A
/// request for which it does is answered 304 (RFC 7232, section 3.2).
pub fn matches_none(fields: &Fields<'_, '_>, tag: &Tag) -> Option<bool>
    ensures { result ≡ matches_none fields.now tag.now }
{
    if !fields.has(b"if-none-match") {
        return None;
    }
    Some(is_among(tag.as_slice(), fields.items(b"if-none-match")))
}

fn is_among(tag: &[u8], mut items: FieldItems<'_, '_, '_>) -> bool
    ensures { result ≡ list_any (is_listed tag.now) items.entry }
{
    items.any(|item| is_listed(tag, item))
}

fn is_listed(tag: &[u8], item: &[u8]) -> bool
    ensures { result ≡ is_listed tag.now item.now }
{
    item == b"*".as_slice() || is_weakly_equal(item, tag)
}

/// Whether a response, such as 304, has an ETag that is not this tag, by weak comparison (RFC 2616,
/// section 10.3.5).
pub fn names_other_tag(fields: &Fields<'_, '_>, tag: &Tag) -> bool
    ensures { result ≡ names_other_tag fields.now tag.now }
{
    if is_dropped(fields, b"etag") {
        return false;
    }
    has_other(tag.as_slice(), fields.values(b"etag"))
}

fn has_other(tag: &[u8], mut values: FieldValues<'_, '_, '_>) -> bool
    ensures { result ≡ list_any (λ value. not (is_weakly_equal value tag.now)) values.entry }
{
    values.any(|value| !is_weakly_equal(value, tag))
}

fn is_weakly_equal(a: &[u8], b: &[u8]) -> bool
    ensures { result ≡ is_weakly_equal a.now b.now }
{
    opaque_part(a) == opaque_part(b)
}

/// Whether the kept response was not modified since the date of the request: both dates are
/// readable, and Last-Modified is not later than If-Modified-Since (RFC 7232, section 3.3).
pub fn not_modified_since(fields: &Fields<'_, '_>, kept: &Fields<'_, '_>) -> bool
    ensures { result ≡ not_modified_since fields.now kept.now }
{
    match (
        date_of(b"last-modified", kept),
        date_of(b"if-modified-since", fields),
    ) {
        (Some(modified), Some(since)) => modified <= since,
        _ => false,
    }
}

/// Whether the Range of the request counts for a body with this tag: there is no If-Range, or it is
/// this tag by strong comparison (RFC 7233, section 3.2).
pub fn if_range_holds(fields: &Fields<'_, '_>, tag: &Tag) -> bool
    ensures { result ≡ if_range_holds fields.now tag.now }
{
    let mut values = fields.values(b"if-range");
    let Some(value) = values.next() else {
        return true;
    };
    if values.next().is_some() {
        return false;
    }
    value == tag.as_slice()
}
