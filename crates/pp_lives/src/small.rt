// Files of all kinds on a small disk.
mod folder; // a small disk

use crate::entries::A_NAME;
use crate::saying::{says_nothing, told};
use folder::{Failing, Folder, NAMES, Step};
use pp_recover::{RecoverFault, open};
use pp_store::Store;
use pp_target::file_name;
use pp_text::OutOfMemory;
use pp_world::Name;
use std::alloc::Global;
use std::test::Fail;

/// The text of an entry of three chunks, of the key `http://h/b`.
const SECOND: &[u8] =
    b"HTTP/1.1 200 OK\r\netag: \"x\"\r\ndate: Sun, 06 Nov 1994 08:49:37 GMT\r\nX-Polipo-Location: http://h/b\r\nX-Polipo-Date: 784111777\r\nX-Polipo-Age: 0\r\nX-Polipo-Length: 12288\r\nX-Polipo-Body-Offset: 12288\r\n\r\n";

/// The same of `http://h/a`.
const FIRST: &[u8] =
    b"HTTP/1.1 200 OK\r\netag: \"x\"\r\ndate: Sun, 06 Nov 1994 08:49:37 GMT\r\nX-Polipo-Location: http://h/a\r\nX-Polipo-Date: 784111777\r\nX-Polipo-Age: 0\r\nX-Polipo-Length: 12288\r\nX-Polipo-Body-Offset: 12288\r\n\r\n";

/// A file of so many bytes: a head block with this text, three gates, and a body of `b` alone.
fn file(alloc: Global, text: &[u8], gates: [u8; 3], length: usize) -> Vec<u8> {
    let mut bytes = Vec::new(alloc);
    for i in 0..length {
        let byte = if i < 8192 {
            text.get(i).copied().unwrap_or(0)
        } else if i < 12_288 {
            gates.get(i - 8192).copied().unwrap_or(0)
        } else {
            b'b'
        };
        let _ = bytes.push(byte);
    }
    bytes
}

/// Puts another byte at a place.
fn write_at(file: &mut [u8], place: usize, byte: u8) {
    if let Some(at) = file.get_mut(place) {
        *at = byte;
    }
}

fn is_whole(file: &[u8], gates: [u8; 3]) -> bool {
    file.get(8192..8195) == Some(&gates[..])
        && file
            .get(12_288..)
            .is_some_and(|body| body.iter().all(|byte| *byte == b'b'))
}

/// How much of the body of `http://h/b` is kept, if it is kept.
fn extent_of(store: &Store) -> Option<u64> {
    Some(store.kept(b"http://h/b")?.extent)
}

fn is_named(key: &[u8], name: &Name) -> bool {
    file_name(key) == *name
}

#[test]
fn the_names_are_those_of_the_keys(rt: HostRuntime) {
    assert!(rt; is_named(b"http://h/a", &NAMES[0]));
    assert!(rt; is_named(b"http://h/b", &NAMES[1]));
}

/// What is found in a folder with a file of `http://h/b`, and what is done to it.
enum Row<'a> {
    /// With these gates, and of so many bytes: how much of its body is kept, if it is kept.
    Counts([u8; 3], usize, Option<u64>),
    /// Whole, and with these gates: what is done, and the gates that are left.
    Closes([u8; 3], &'a [Step], [u8; 3]),
    /// With this text, and another byte at this place: it is no entry, and is left as it is.
    Foreign(&'a [u8], Option<(usize, u8)>),
    /// Beside one of `http://h/a`, for which this call fails: that one's name alone is closed.
    Fails(Failing),
}

fn is_met(alloc: Global, row: &Row<'_>) -> bool {
    match row {
        Row::Counts(gates, length, wanted) => counts(alloc, *gates, *length, *wanted),
        Row::Closes(gates, steps, left) => closes(alloc, *gates, steps, *left),
        Row::Foreign(text, other) => is_foreign(alloc, text, *other),
        Row::Fails(failing) => fails(alloc, *failing),
    }
}

fn counts(alloc: Global, gates: [u8; 3], length: usize, wanted: Option<u64>) -> bool {
    let mut disk = Folder::new(Vec::new(alloc), file(alloc, SECOND, gates, length));
    match open(alloc, &mut disk) {
        Ok(store) => {
            extent_of(&store) == wanted
                && !store.is_closed(&NAMES[0])
                && !store.is_closed(&NAMES[1])
        }
        Err(_) => false,
    }
}

fn closes(alloc: Global, gates: [u8; 3], steps: &[Step], left: [u8; 3]) -> bool {
    let mut disk = Folder::new(Vec::new(alloc), file(alloc, SECOND, gates, 24_576));
    let is_kept = match open(alloc, &mut disk) {
        Ok(store) => extent_of(&store).is_some(),
        Err(_) => false,
    };
    is_kept && disk.steps.as_slice() == steps && is_whole(disk.two.as_slice(), left)
}

fn is_foreign(alloc: Global, text: &[u8], other: Option<(usize, u8)>) -> bool {
    let mut bytes = file(alloc, text, [0, 1, 1], 24_576);
    if let Some((place, byte)) = other {
        write_at(bytes.as_mut_slice(), place, byte);
    }
    let mut disk = Folder::new(Vec::new(alloc), bytes);
    let is_none = match open(alloc, &mut disk) {
        Ok(store) => store.entries() == 0 && !store.is_closed(&NAMES[1]),
        Err(_) => false,
    };
    is_none && disk.steps.is_empty() && is_whole(disk.two.as_slice(), [0, 1, 1])
}

fn fails(alloc: Global, failing: Failing) -> bool {
    let mut disk = Folder::new(
        file(alloc, FIRST, [1, 0, 1], 24_576),
        file(alloc, SECOND, [1, 0, 1], 24_576),
    );
    disk.failing = failing;
    match open(alloc, &mut disk) {
        Ok(store) => {
            store.entries() == 1
                && extent_of(&store) == Some(4096)
                && store.is_closed(&NAMES[0])
                && !store.is_closed(&NAMES[1])
        }
        Err(_) => false,
    }
}

fn unlike(alloc: Global, rows: &[Row<'_>]) -> Result<String, OutOfMemory> {
    told(
        alloc,
        "a small disk",
        rows.iter().position(|row| !is_met(alloc, row)),
    )
}

const COUNTED: &[Row<'static>] = &[
    Row::Counts([1, 1, 1], 24_576, Some(12_288)),
    Row::Counts([1, 1, 1], 24_577, None),
    Row::Counts([1, 1, 1], 24_575, None),
    Row::Counts([1, 1, 0], 20_480, Some(8192)),
    Row::Counts([1, 1, 0], 20_479, None),
    Row::Counts([1, 0, 0], 16_384, Some(4096)),
    Row::Counts([1, 0, 1], 16_384, Some(4096)),
    Row::Counts([1, 2, 1], 16_384, Some(4096)),
    Row::Counts([255, 1, 1], 12_288, Some(0)),
    Row::Counts([0, 0, 0], 12_288, Some(0)),
    Row::Counts([0, 0, 0], 12_287, None),
    Row::Counts([0, 0, 0], 8192, None),
    Row::Counts([0, 0, 0], 8191, None),
    Row::Counts([0, 0, 0], 5, None),
    Row::Counts([0, 0, 0], 0, None),
];

#[test]
fn a_file_counts_where_it_has_all_that_its_gates_keep(rt: HostRuntime) -> Result<(), Fail> {
    says_nothing(&rt, unlike(rt.alloc(), COUNTED))
}

const CLOSED: &[Row<'static>] = &[
    Row::Closes([1, 1, 1], &[], [1, 1, 1]),
    Row::Closes([1, 0, 0], &[], [1, 0, 0]),
    Row::Closes(
        [1, 0, 1],
        &[Step::Write(8194, 1, Some(0)), Step::Sync],
        [1, 0, 0],
    ),
    Row::Closes(
        [0, 1, 1],
        &[Step::Write(8193, 2, Some(0)), Step::Sync],
        [0, 0, 0],
    ),
    Row::Closes(
        [7, 1, 0],
        &[Step::Write(8193, 1, Some(0)), Step::Sync],
        [7, 0, 0],
    ),
    Row::Closes([2, 3, 4], &[], [2, 3, 4]),
];

#[test]
fn gates_behind_one_that_is_not_open_are_closed(rt: HostRuntime) -> Result<(), Fail> {
    says_nothing(&rt, unlike(rt.alloc(), CLOSED))
}

const FOREIGN: &[Row<'static>] = &[
    Row::Foreign(b"", None),
    Row::Foreign(b"notes of my own", None),
    // The entry of another key, a byte of the head changed, and one behind its text.
    Row::Foreign(FIRST, None),
    Row::Foreign(SECOND, Some((77, b'H'))),
    Row::Foreign(SECOND, Some((8191, 1))),
];

#[test]
fn other_files_are_left_as_they_are(rt: HostRuntime) -> Result<(), Fail> {
    says_nothing(&rt, unlike(rt.alloc(), FOREIGN))
}

const FAULTS: &[Row<'static>] = &[
    Row::Fails(Failing::Read(A_NAME)),
    Row::Fails(Failing::Write(A_NAME)),
    Row::Fails(Failing::Sync(A_NAME)),
];

#[test]
fn a_fault_on_one_file_closes_its_name_alone(rt: HostRuntime) -> Result<(), Fail> {
    says_nothing(&rt, unlike(rt.alloc(), FAULTS))
}

fn refusal(alloc: Global) -> Option<RecoverFault> {
    let mut disk = Folder::new(Vec::new(alloc), file(alloc, SECOND, [1, 1, 1], 24_576));
    disk.failing = Failing::Names;
    open(alloc, &mut disk).err()
}

#[test]
fn a_folder_that_is_not_listed_is_not_an_empty_one(rt: HostRuntime) {
    assert_eq!(rt; refusal(rt.alloc()), Some(RecoverFault::DiskFault));
}
