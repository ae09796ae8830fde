// Heads, targets and ranges.
use crate::saying::{says_nothing, told};
use arrayvec::ArrayVec;
use pp_head::{HeadState, KeptHead, Scratch, read_response};
use pp_ranges::{Range, Resolved, read_range, resolve};
use pp_target::{KEY_ROOM, Place, TargetFault, file_name, key};
use pp_text::OutOfMemory;
use std::alloc::Global;
use std::test::Fail;

/// A text, and what is read of it.
enum Read<'a> {
    /// The status of the response at the front, the length of its head, and how many fields it has.
    Whole(&'a [u8], (u16, usize, usize)),
    TooLong(&'a [u8]),
    Bad(&'a [u8]),
    More(&'a [u8]),
    /// The range of a request with this line, and what it stands for in a body of five bytes.
    Range(&'a [u8], Option<(Range, Resolved)>),
    /// The key of a target, and where its parts stand.
    Key(&'a [u8], Result<Place, TargetFault>, &'a [u8]),
    /// The name of the file of a key.
    FileName(&'a [u8], [u8; 32]),
}

fn is_read(alloc: Global, row: &Read<'_>) -> bool {
    match row {
        Read::Whole(bytes, wanted) => whole(bytes) == Some(*wanted),
        Read::TooLong(bytes) => is_too_long(bytes),
        Read::Bad(bytes) => is_bad(bytes),
        Read::More(bytes) => is_more(bytes),
        Read::Range(line, wanted) => range(line) == *wanted,
        Read::Key(target, wanted, text) => has_key(alloc, target, *wanted, text),
        Read::FileName(key, wanted) => file_name(key) == *wanted,
    }
}

fn whole(bytes: &[u8]) -> Option<(u16, usize, usize)> {
    let mut scratch = Scratch::new();
    match read_response(bytes, &mut scratch) {
        HeadState::Whole(head) => Some((head.status, head.length, head.fields.len())),
        HeadState::TooLong | HeadState::Bad | HeadState::More => None,
    }
}

fn is_too_long(bytes: &[u8]) -> bool {
    let mut scratch = Scratch::new();
    matches!(read_response(bytes, &mut scratch), HeadState::TooLong)
}

fn is_bad(bytes: &[u8]) -> bool {
    let mut scratch = Scratch::new();
    matches!(read_response(bytes, &mut scratch), HeadState::Bad)
}

fn is_more(bytes: &[u8]) -> bool {
    let mut scratch = Scratch::new();
    matches!(read_response(bytes, &mut scratch), HeadState::More)
}

fn range(line: &[u8]) -> Option<(Range, Resolved)> {
    let text = request_with(line);
    let mut kept = KeptHead::new();
    kept.read(&text);
    let HeadState::Whole(request) = kept.show(&text) else {
        return None;
    };
    let range = read_range(&request.fields)?;
    Some((range, resolve(&range, 5)))
}

fn request_with(line: &[u8]) -> ArrayVec<u8, 128> {
    let mut text = ArrayVec::new();
    let _ = text.try_extend_from_slice(b"GET http://h/ HTTP/1.1\r\n");
    let _ = text.try_extend_from_slice(line);
    let _ = text.try_extend_from_slice(b"\r\n\r\n");
    text
}

/// What was there before is gone.
fn has_key(alloc: Global, target: &[u8], wanted: Result<Place, TargetFault>, text: &[u8]) -> bool {
    let mut out: ArrayVec<u8, KEY_ROOM> = ArrayVec::new();
    let _ = out.try_push(b'?');
    key(alloc, target, &mut out) == wanted && out.as_slice() == text
}

fn unlike(alloc: Global, rows: &[Read<'_>]) -> Result<String, OutOfMemory> {
    told(
        alloc,
        "heads",
        rows.iter().position(|row| !is_read(alloc, row)),
    )
}

const READ: &[Read<'static>] = &[
    // A response is whole or not.
    Read::Whole(
        b"\r\n\nHTTP/1.1 200 OK\r\nETag: \"x\"\nA:\r\n\r\nhello",
        (200, 36, 2),
    ),
    Read::More(b"HTTP/1.1 200 OK\r\nETag: \"x\"\r\n\r"),
    Read::Bad(b"HTTP/1.1 20 OK\r\n\r\n"),
    Read::TooLong(&[b'\n'; 102]),
    // A range stands for the bytes that are there.
    Read::Range(
        b"Range: bytes=1-3",
        Some((Range::Span(1, 3), Resolved::Part(1, 4))),
    ),
    Read::Range(
        b"Range: bytes=5-",
        Some((Range::From(5), Resolved::Unsatisfiable)),
    ),
    Read::Range(
        b"Range: bytes=-9",
        Some((Range::Last(9), Resolved::Part(0, 5))),
    ),
    Read::Range(b"Range: bytes=0-0,-1", None),
    Read::Range(b"A: b", None),
    // A target has the key of its URL, and its file a name.
    Read::Key(
        b"http://Example.COM:081?q=1#c",
        Ok(Place {
            host: (7, 18),
            port: 81,
            path: 21,
        }),
        b"http://example.com:81/?q=1",
    ),
    Read::Key(b"/a", Err(TargetFault::NotAbsolute), b""),
    Read::Key(b"https://h/", Err(TargetFault::NotHttp), b""),
    Read::Key(b"http://u@h/", Err(TargetFault::BadHost), b""),
    Read::Key(b"http://h:0/", Err(TargetFault::BadPort), b""),
    Read::FileName(b"abc", *b"900150983cd24fb0d6963f7d28e17f72"),
];

#[test]
fn heads_targets_and_ranges_are_read(rt: HostRuntime) -> Result<(), Fail> {
    says_nothing(&rt, unlike(rt.alloc(), READ))
}
