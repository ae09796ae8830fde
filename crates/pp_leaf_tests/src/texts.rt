// Numbers, lists and owned bytes.
use crate::saying::{says_nothing, told};
use arrayvec::ArrayVec;
use pp_text::{
    Items, Octets, OutOfMemory, cut, put_u64, read_hex, read_u64, same, sole_item, trim,
};
use std::alloc::Global;
use std::test::Fail;

/// A text, and what is read of it.
enum Read<'a> {
    Number(&'a [u8], Option<u64>),
    Hex(&'a [u8], Option<u64>),
    Same(&'a [u8], &'a [u8]),
    Trimmed(&'a [u8], &'a [u8]),
    /// What stands before and behind the first of this byte.
    Cut(&'a [u8], u8, Option<(&'a [u8], &'a [u8])>),
    SoleItem(&'a [u8], Option<&'a [u8]>),
    /// Its items, each with `|` behind it.
    Items(&'a [u8], &'a [u8]),
}

fn is_read(row: &Read<'_>) -> bool {
    match row {
        Read::Number(text, wanted) => read_u64(text) == *wanted,
        Read::Hex(text, wanted) => read_hex(text) == *wanted,
        Read::Same(text, other) => same(text, other),
        Read::Trimmed(text, wanted) => trim(text) == *wanted,
        Read::Cut(text, byte, wanted) => cut(text, *byte) == *wanted,
        Read::SoleItem(text, wanted) => sole_item(text) == *wanted,
        Read::Items(text, wanted) => items(text).as_slice() == *wanted,
    }
}

fn items(text: &[u8]) -> ArrayVec<u8, 64> {
    let mut items = ArrayVec::new();
    for item in Items::new(text) {
        let _ = items.try_extend_from_slice(item);
        let _ = items.try_push(b'|');
    }
    items
}

fn unlike_read(alloc: Global, rows: &[Read<'_>]) -> Result<String, OutOfMemory> {
    told(alloc, "read", rows.iter().position(|row| !is_read(row)))
}

/// What is done with a text that is written, and what it is then.
enum Write<'a> {
    /// Whether the number goes behind what is there.
    Number(u64, bool),
    /// So many dots.
    Dots(usize),
    Len(usize),
    Is(&'a [u8]),
    EndsWith(&'a [u8]),
}

type Text = ArrayVec<u8, 20480>;

fn is_written(text: &mut Text, row: &Write<'_>) -> bool {
    match row {
        Write::Number(n, wanted) => put_u64(*n, text) == *wanted,
        Write::Dots(count) => put_dots(text, *count),
        Write::Len(len) => text.len() == *len,
        Write::Is(wanted) => text.as_slice() == *wanted,
        Write::EndsWith(wanted) => text.as_slice().ends_with(wanted),
    }
}

fn put_dots(text: &mut Text, count: usize) -> bool {
    for _ in 0..count {
        if text.try_push(b'.').is_err() {
            return false;
        }
    }
    true
}

fn unlike_written(alloc: Global, rows: &[Write<'_>]) -> Result<String, OutOfMemory> {
    let mut text = Text::new();
    for (place, row) in rows.iter().enumerate() {
        if !is_written(&mut text, row) {
            return told(alloc, "written", Some(place));
        }
    }
    told(alloc, "written", None)
}

/// Owned bytes: the first part copied, and the others behind it.
fn owned(alloc: Global, parts: &[&[u8]]) -> Result<Octets, OutOfMemory> {
    let Some((first, others)) = parts.split_first() else {
        return Ok(Octets::empty(alloc));
    };
    let mut bytes = Octets::copy(alloc, first)?;
    for part in others {
        bytes.append(part)?;
    }
    Ok(bytes)
}

/// Parts, and all of them together.
type Owned = (&'static [&'static [u8]], &'static [u8]);

fn unlike_owned(alloc: Global, rows: &[Owned]) -> Result<String, OutOfMemory> {
    for (place, (parts, wanted)) in rows.iter().enumerate() {
        if owned(alloc, parts)?.as_slice() != *wanted {
            return Ok(told(alloc, "owned", Some(place))?);
        }
    }
    Ok(String::new(alloc))
}

const READ: &[Read<'static>] = &[
    Read::Number(b"18446744073709551615", Some(u64::MAX)),
    Read::Hex(b"aAfF", Some(43_775)),
    Read::Same(b"Content-Length", b"content-LENGTH"),
    Read::Trimmed(b" \t a b\t ", b"a b"),
    Read::Cut(b"a==b", b'=', Some((b"a", b"=b"))),
    Read::SoleItem(b" , 0-1,", Some(b"0-1")),
    Read::Items(
        b",no-cache=\"a, b\" ,, max-age=1",
        b"no-cache=\"a, b\"|max-age=1|",
    ),
];

/// What is written goes behind what is there, or not at all.
const WRITTEN: &[Write<'static>] = &[
    Write::Number(0, true),
    Write::Number(u64::MAX, true),
    Write::Is(b"018446744073709551615"),
    Write::Dots(20457),
    Write::Number(100, false),
    Write::Len(20478),
    Write::Number(42, true),
    Write::EndsWith(b"..42"),
    Write::Number(0, false),
];

const OWNED: &[Owned] = &[(&[b"GET ", b"/"], b"GET /"), (&[], b"")];

#[test]
fn texts_are_read_and_written(rt: HostRuntime) -> Result<(), Fail> {
    says_nothing(&rt, unlike_read(rt.alloc(), READ))?;
    says_nothing(&rt, unlike_written(rt.alloc(), WRITTEN))?;
    says_nothing(&rt, unlike_owned(rt.alloc(), OWNED))
}
