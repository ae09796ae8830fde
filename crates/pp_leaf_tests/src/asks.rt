// What an origin is asked.
use crate::saying::{says_nothing, told};
use arrayvec::ArrayVec;
use pp_ask::{ASK_LEN, AskKind, TooLong, write_ask};
use pp_head::{HeadState, KeptHead, RequestHead};
use pp_target::key;
use pp_text::OutOfMemory;
use pp_valid::Tag;
use std::alloc::Global;
use std::test::Fail;

/// What is asked, where the tag is `"x"`.
#[derive(Clone, Copy)]
enum Kind {
    Whole,
    From(u64),
    Hole(u64, u64),
    Check,
    Pass,
}

fn kind_of(kind: Kind, tag: &Tag) -> AskKind<'_> {
    match kind {
        Kind::Whole => AskKind::Whole,
        Kind::From(first) => AskKind::Range(first, None),
        Kind::Hole(first, last) => AskKind::Hole(first, last, tag),
        Kind::Check => AskKind::Check(tag),
        Kind::Pass => AskKind::Pass,
    }
}

type Text = ArrayVec<u8, ASK_LEN>;

/// The ask for the request of a client, under the name `polipo`.
fn ask(alloc: Global, kind: Kind, received: &[u8], out: &mut Text) -> Option<Result<(), TooLong>> {
    let mut kept = KeptHead::new();
    kept.read(received);
    match kept.show(received) {
        HeadState::Whole(request) => ask_for(alloc, kind, &request, out),
        HeadState::TooLong | HeadState::Bad | HeadState::More => None,
    }
}

fn ask_for(
    alloc: Global,
    kind: Kind,
    request: &RequestHead<'_, '_>,
    out: &mut Text,
) -> Option<Result<(), TooLong>> {
    let tag = Tag::read(b"\"x\"")?;
    let mut text = ArrayVec::new();
    match key(alloc, request.target, &mut text) {
        Ok(place) => Some(write_ask(&kind_of(kind, &tag), request, &text, &place, b"polipo", out)),
        Err(_) => None,
    }
}

/// A request, and what is asked for it.
enum Row<'a> {
    /// A text of this kind, for `RECEIVED`.
    Text(Kind, &'a [u8]),
    /// So long a text, where a field of the request has a value of so many bytes.
    Long(usize, Result<(), TooLong>, usize),
}

const RECEIVED: &[u8] =
    b"GET http://H:81/a?b#c HTTP/1.1\r\nHOST: other\r\nAccept: a\r\nRange: bytes=1-2\r\nConnection: X-A, close\r\nx-a: 1\r\nContent-Length: 000\r\n\r\n";

fn is_asked(alloc: Global, out: &mut Text, row: &Row<'_>) -> bool {
    match row {
        Row::Text(kind, wanted) => {
            ask(alloc, *kind, RECEIVED, out) == Some(Ok(())) && out.as_slice() == *wanted
        }
        Row::Long(count, wanted, len) => {
            ask(alloc, Kind::Whole, &long_request(*count), out) == Some(*wanted)
                && out.len() == *len
        }
    }
}

/// A request with a field of so many bytes.
fn long_request(count: usize) -> ArrayVec<u8, 20_000> {
    let mut text = ArrayVec::new();
    let _ = text.try_extend_from_slice(b"GET http://h/a HTTP/1.1\r\na: ");
    for _ in 0..count {
        let _ = text.try_push(b'v');
    }
    let _ = text.try_extend_from_slice(b"\r\n\r\n");
    text
}

fn unlike(alloc: Global, rows: &[Row<'_>]) -> Result<String, OutOfMemory> {
    let mut out = Text::new();
    told(
        alloc,
        "asks",
        rows.iter().position(|row| !is_asked(alloc, &mut out, row)),
    )
}

const ASKS: &[Row<'static>] = &[
    Row::Text(
        Kind::Whole,
        b"GET /a?b HTTP/1.1\r\nhost: h:81\r\naccept: a\r\nvia: 1.1 polipo\r\n\r\n",
    ),
    Row::Text(
        Kind::From(4096),
        b"GET /a?b HTTP/1.1\r\nhost: h:81\r\naccept: a\r\nrange: bytes=4096-\r\nvia: 1.1 polipo\r\n\r\n",
    ),
    Row::Text(
        Kind::Hole(4096, 8191),
        b"GET /a?b HTTP/1.1\r\nhost: h:81\r\naccept: a\r\nrange: bytes=4096-8191\r\nif-range: \"x\"\r\nvia: 1.1 polipo\r\n\r\n",
    ),
    Row::Text(
        Kind::Check,
        b"GET /a?b HTTP/1.1\r\nhost: h:81\r\naccept: a\r\nif-none-match: \"x\"\r\nvia: 1.1 polipo\r\n\r\n",
    ),
    Row::Text(
        Kind::Pass,
        b"GET /a?b HTTP/1.1\r\nhost: h:81\r\naccept: a\r\nrange: bytes=1-2\r\ncontent-length: 0\r\nvia: 1.1 polipo\r\n\r\n",
    ),
    // Without the value there are 50 bytes.
    Row::Long(16_334, Ok(()), ASK_LEN),
    Row::Long(16_335, Err(TooLong), 0),
];

#[test]
fn an_ask_has_the_lines_of_its_kind(rt: HostRuntime) -> Result<(), Fail> {
    says_nothing(&rt, unlike(rt.alloc(), ASKS))
}
