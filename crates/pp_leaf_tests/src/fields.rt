// The fields of a head.
ghost use Rattle.std.specs.Prelude.{◌≡◌, fold, length, max};
ghost use Rattle.pp_text.specs.Fields.{list_items};

use crate::saying::{says_nothing, told};
use pp_text::{FieldSpan, Fields, OutOfMemory, is_forwarded, sole_value};
use std::alloc::Global;
use std::test::Fail;

const HEAD: &[u8] =
    b"Cache-Control: max-age=60, no-cache\nDate:\ncache-control: \"a,b\" , private\nDate: x";

const SPANS: [FieldSpan; 4] = [
    FieldSpan {
        name_from: 0,
        name_to: 13,
        value_from: 15,
        value_to: 35,
    },
    FieldSpan {
        name_from: 36,
        name_to: 40,
        value_from: 41,
        value_to: 41,
    },
    FieldSpan {
        name_from: 42,
        name_to: 55,
        value_from: 57,
        value_to: 72,
    },
    FieldSpan {
        name_from: 73,
        name_to: 77,
        value_from: 79,
        value_to: 80,
    },
];

/// What is found among these fields, by their place or their name.
enum Found<'a> {
    Len(usize),
    IsEmpty(bool),
    Name(usize, &'a [u8]),
    Value(usize, &'a [u8]),
    IsForwarded(usize, bool),
    Has(&'a [u8], bool),
    Count(&'a [u8], usize),
    First(&'a [u8], Option<&'a [u8]>),
    Last(&'a [u8], Option<&'a [u8]>),
    Sole(&'a [u8], Option<&'a [u8]>),
    /// The item of this place.
    Item(&'a [u8], usize, Option<&'a [u8]>),
    HasItem(&'a [u8], &'a [u8], bool),
    LongestItem(&'a [u8], usize),
}

fn is_found(fields: &Fields<'_, '_>, row: &Found<'_>) -> bool {
    match row {
        Found::Len(len) => fields.len() == *len,
        Found::IsEmpty(wanted) => fields.is_empty() == *wanted,
        Found::Name(index, wanted) => *index < fields.len() && fields.name(*index) == *wanted,
        Found::Value(index, wanted) => *index < fields.len() && fields.value(*index) == *wanted,
        Found::IsForwarded(index, wanted) => {
            *index < fields.len() && is_forwarded(fields, *index) == *wanted
        }
        Found::Has(name, wanted) => fields.has(name) == *wanted,
        Found::Count(name, wanted) => fields.count(name) == *wanted,
        Found::First(name, wanted) => fields.first(name) == *wanted,
        Found::Last(name, wanted) => fields.values(name).last() == *wanted,
        Found::Sole(name, wanted) => sole_value(fields, name) == *wanted,
        Found::Item(name, place, wanted) => fields.items(name).nth(*place) == *wanted,
        Found::HasItem(name, item, wanted) => fields.has_item(name, item) == *wanted,
        Found::LongestItem(name, wanted) => longest_item(fields, name) == *wanted,
    }
}

// A caller: what it finds is a fold over the items.
fn longest_item(fields: &Fields, name: &[u8]) -> usize
    ensures { result ≡ fold (λ n item. max n (length item)) 0 (list_items name.now fields.now) }
{
    fields
        .items(name)
        .fold(0, |longest, item| longest.max(item.len()))
}

fn unlike(alloc: Global, rows: &[Found<'_>]) -> Result<String, OutOfMemory> {
    let fields = Fields::new(HEAD, &SPANS);
    told(
        alloc,
        "fields",
        rows.iter().position(|row| !is_found(&fields, row)),
    )
}

const FOUND: &[Found<'static>] = &[
    Found::Len(4),
    Found::IsEmpty(false),
    Found::Name(2, b"cache-control"),
    Found::Value(3, b"x"),
    Found::First(b"DATE", Some(b"")),
    Found::Count(b"date", 2),
    Found::Has(b"expires", false),
    Found::Sole(b"date", None),
    Found::Last(b"date", Some(b"x")),
    Found::Item(b"CACHE-CONTROL", 2, Some(b"\"a,b\"")),
    Found::HasItem(b"cache-control", b"Private", true),
    Found::LongestItem(b"cache-control", 10),
    Found::IsForwarded(0, true),
];

#[test]
fn fields_of_a_name_are_found_whatever_their_case(rt: HostRuntime) -> Result<(), Fail> {
    says_nothing(&rt, unlike(rt.alloc(), FOUND))
}
