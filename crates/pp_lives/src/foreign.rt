// Files that are no entries: they are left as they are, and the program goes on.
use crate::acts::Act;
use crate::courses::{At, CRASH, Course, Crash, QUIET, unlike};
use crate::entries::{
    A, A_NAME, B_NAME, BESIDE, Body, Bytes, Entry, File, HEAD_OF_TWO, HELLO, TWO,
};
use crate::format::Found;
use crate::given::TIMES_READ;
use crate::saying::says_nothing;
use pp_text::OutOfMemory;
use pp_world::Name;
use std::alloc::Global;
use std::test::Fail;

/// No head, and another text in its place.
const HEADLESS: &Entry = &Entry {
    name: A_NAME,
    key: A,
    head: b"",
    length: 8192,
    body: Body::Noise,
};

const NOTES: &Entry = &Entry {
    name: A_NAME,
    key: A,
    head: b"notes of my own",
    length: 8192,
    body: Body::Noise,
};

/// Nothing tells the end of the head.
const UNENDED: &Entry = &Entry {
    name: A_NAME,
    key: A,
    head: b"HTTP/1.1 200 OK\r\netag: \"x\"\r\ndate: Sun, 06 Nov 1994 08:49:37 GMT\r\ncache-control: max-age=60\r\nX-Polipo-Location: http://h/a\r\nX-Polipo-Date: 784111777\r\nX-Polipo-Age: 0\r\nX-Polipo-Length: 8192\r\nX-Polipo-Body-Offset: 12288\r\n",
    length: 8192,
    body: Body::Noise,
};

/// Its fields are not those that are kept of a response: one is of one connection, there is no date, they stand in another
/// order, or there are two dates.
const OF_A_CONNECTION: &Entry = &Entry {
    name: A_NAME,
    key: A,
    head: b"HTTP/1.1 200 OK\r\netag: \"x\"\r\nte: trailers\r\ndate: Sun, 06 Nov 1994 08:49:37 GMT\r\ncache-control: max-age=60\r\nX-Polipo-Location: http://h/a\r\nX-Polipo-Date: 784111777\r\nX-Polipo-Age: 0\r\nX-Polipo-Length: 8192\r\nX-Polipo-Body-Offset: 12288\r\n\r\n",
    length: 8192,
    body: Body::Noise,
};

const UNDATED: &Entry = &Entry {
    name: A_NAME,
    key: A,
    head: b"HTTP/1.1 200 OK\r\netag: \"x\"\r\ncache-control: max-age=60\r\nX-Polipo-Location: http://h/a\r\nX-Polipo-Date: 784111777\r\nX-Polipo-Age: 0\r\nX-Polipo-Length: 8192\r\nX-Polipo-Body-Offset: 12288\r\n\r\n",
    length: 8192,
    body: Body::Noise,
};

const MISPLACED: &Entry = &Entry {
    name: A_NAME,
    key: A,
    head: b"HTTP/1.1 200 OK\r\netag: \"x\"\r\ncache-control: max-age=60\r\ndate: Sun, 06 Nov 1994 08:49:37 GMT\r\nX-Polipo-Location: http://h/a\r\nX-Polipo-Date: 784111777\r\nX-Polipo-Age: 0\r\nX-Polipo-Length: 8192\r\nX-Polipo-Body-Offset: 12288\r\n\r\n",
    length: 8192,
    body: Body::Noise,
};

const TWICE_DATED: &Entry = &Entry {
    name: A_NAME,
    key: A,
    head: b"HTTP/1.1 200 OK\r\netag: \"x\"\r\ndate: Sun, 06 Nov 1994 08:49:37 GMT\r\ndate: Sun, 06 Nov 1994 08:49:37 GMT\r\ncache-control: max-age=60\r\nX-Polipo-Location: http://h/a\r\nX-Polipo-Date: 784111777\r\nX-Polipo-Age: 0\r\nX-Polipo-Length: 8192\r\nX-Polipo-Body-Offset: 12288\r\n\r\n",
    length: 8192,
    body: Body::Noise,
};

/// The whole entry of another key.
const OTHER_FILE: File = File {
    name: B_NAME,
    bytes: Bytes::Entry(BESIDE, &[1, 1]),
};

/// It is no entry, nothing is written, and the key can be kept.
const FOREIGN: Course<'static> = Course {
    name: "a file that is no entry",
    is_beside: true,
    acts: &[
        Act::Lacks(TWO, false),
        Act::Has(BESIDE, 8192, &TIMES_READ),
        Act::Entries(1),
        Act::Happened(3),
    ],
    crashes: &[Crash {
        at: At::Behind(&[3]),
        choices: &[0, 1],
        left: &[Found::Other],
        ..CRASH
    }],
    ..QUIET
};

const FILES: [Bytes; 19] = [
    // Nothing but zeros, with open gates and a body or without; another text in the place of the head.
    Bytes::Run(0, 12_288),
    Bytes::Entry(HEADLESS, &[1, 1]),
    Bytes::Entry(NOTES, &[1, 1]),
    Bytes::Entry(UNENDED, &[1, 1]),
    // Fields that no entry has.
    Bytes::Entry(OF_A_CONNECTION, &[1, 1]),
    Bytes::Entry(UNDATED, &[1, 1]),
    Bytes::Entry(MISPLACED, &[1, 1]),
    Bytes::Entry(TWICE_DATED, &[1, 1]),
    // The entry of another key, where the names may be the same or not.
    Bytes::Entry(BESIDE, &[1, 1]),
    Bytes::Text(b""),
    Bytes::Text(b"12345"),
    // A head alone, a head block of zeros, and the same byte everywhere.
    Bytes::Text(HEAD_OF_TWO),
    Bytes::Run(0, 8192),
    Bytes::Run(1, 20_480),
    Bytes::Noise(0),
    Bytes::Noise(1),
    Bytes::Noise(2),
    Bytes::Noise(3),
    Bytes::Noise(4),
];

/// Where a folder with one of these files goes otherwise.
fn unlike_files(alloc: Global, files: &[Bytes]) -> Result<String, OutOfMemory> {
    for (place, bytes) in files.iter().enumerate() {
        let file = File {
            name: A_NAME,
            bytes: *bytes,
        };
        let said = unlike_in(alloc, &[file, OTHER_FILE], FOREIGN)?;
        if !said.is_empty() {
            return Ok(format!(in alloc; "file {place}: {said}")?);
        }
    }
    Ok(String::new(alloc))
}

/// Where this course goes otherwise over a folder that it leaves as it is.
fn unlike_in(
    alloc: Global,
    folder: &[File],
    course: Course<'static>,
) -> Result<String, OutOfMemory> {
    let course = Course {
        folder,
        files: folder,
        ..course
    };
    unlike(alloc, &[course])
}

#[test]
fn a_file_that_is_no_entry_is_left_as_it_is(rt: HostRuntime) -> Result<(), Fail> {
    says_nothing(&rt, unlike_files(rt.alloc(), &FILES))
}

/// An entry under a name that no entry has.
const UNSEEN: Course<'static> = Course {
    name: "an entry under a name that no entry has",
    acts: &[Act::Entries(0), Act::Happened(3)],
    ..QUIET
};

const NAMES: [Name; 3] = [[b'g'; 32], [b'A'; 32], [0; 32]];

/// Where a folder with an entry under one of these names goes otherwise.
fn unlike_names(alloc: Global, names: &[Name]) -> Result<String, OutOfMemory> {
    for (place, name) in names.iter().enumerate() {
        let file = File {
            name: *name,
            bytes: Bytes::Entry(HELLO, &[0]),
        };
        let said = unlike_in(alloc, &[file], UNSEEN)?;
        if !said.is_empty() {
            return Ok(format!(in alloc; "name {place}: {said}")?);
        }
    }
    Ok(String::new(alloc))
}

#[test]
fn a_file_under_any_other_name_is_not_looked_at(rt: HostRuntime) -> Result<(), Fail> {
    says_nothing(&rt, unlike_names(rt.alloc(), &NAMES))
}
