// A disk that tells no log and loses the last byte of each read, and a store that is full.
ghost use Rattle.std.specs.Prelude.{None};

use crate::entries::{A, A_NAME, B_NAME};
use crate::given::keep_in;
use crate::saying::{says_nothing, told};
use pp_store::{KeepFault, LoadFault, Store};
use pp_text::OutOfMemory;
use pp_world::{Disk, DiskFault, Logged, Name, NamesFault};
use std::alloc::Global;
use std::test::Fail;

/// A disk that tells no log. Of each read it gives all bytes but the last.
#[derive(Drop)]
struct Short;

impl Logged for Short {
    ghost log = { λ d. None };

    ghost faults = { λ d. 0 };

    ghost top = { λ d. 0 };
}

impl Disk for Short {
    fn root(&mut self, _folder: &[u8]) {}

    fn names(&mut self, _alloc: Global) -> Result<Vec<Name>, NamesFault> {
        Err(NamesFault::OutOfMemory)
    }

    fn length(&mut self, _name: &Name) -> Result<u64, DiskFault> {
        Ok(0)
    }

    fn read(&mut self, _name: &Name, _at: u64, buf: &mut [u8]) -> Result<usize, DiskFault> {
        Ok(buf.len().saturating_sub(1))
    }

    fn draft(&mut self, _bytes: &[u8]) -> Result<(), DiskFault> {
        Ok(())
    }

    fn sync_draft(&mut self) -> Result<(), DiskFault> {
        Ok(())
    }

    fn publish(&mut self, _name: &Name) -> Result<(), DiskFault> {
        Ok(())
    }

    fn write(&mut self, _name: &Name, _at: u64, _bytes: &[u8]) -> Result<(), DiskFault> {
        Ok(())
    }

    fn sync(&mut self, _name: &Name) -> Result<(), DiskFault> {
        Ok(())
    }

    fn remove(&mut self, _name: &Name) -> Result<(), DiskFault> {
        Ok(())
    }
}

/// Keeps the entry of a key with this whole body. `None` where it may not be asked for.
fn keep(
    store: &mut Store,
    alloc: Global,
    key: &[u8],
    body: &[u8],
) -> Option<Result<(), KeepFault>> {
    keep_in(store, alloc, &mut Short, key, body.len() as u64, body)
}

/// A body of one chunk.
const CHUNK: &[u8] = &[b'a'; 4096];

/// Loads the first chunk of a key. `None` where it is not kept.
fn load(store: &mut Store, key: &[u8], out: &mut [u8; 4096]) -> Option<Result<usize, LoadFault>> {
    if store.kept(key)?.extent == 0 {
        return None;
    }
    Some(store.load(&mut Short, key, 0, out))
}

/// How many entries are kept before no more is made.
const MOST: u32 = 10_000;

/// The key of this number, as `http://h/00042`.
fn numbered(number: u32) -> [u8; 14] {
    let mut key = *b"http://h/00000";
    let mut rest = number;
    for place in 0..5 {
        key[13 - place] = b'0' + (rest % 10) as u8;
        rest /= 10;
    }
    key
}

/// Whether each number's entry is found.
fn finds_each(store: &Store) -> bool {
    for number in 0..MOST {
        let key = numbered(number);
        match store.kept(&key) {
            Some(row) if row.key == key.as_slice() => {}
            _ => return false,
        }
    }
    true
}

/// What is asked of a store over that disk, and what comes of it.
enum Ask<'a> {
    /// The entry of this key is kept with this whole body.
    Keep(&'a [u8], &'a [u8], Option<Result<(), KeepFault>>),
    /// So is that of each number.
    KeepEach,
    /// So often each number's entry is found.
    FindEach(u32),
    /// The first chunk of this key is loaded.
    Load(&'a [u8], Option<Result<usize, LoadFault>>),
    /// Whether this key is kept.
    Has(&'a [u8], bool),
    IsClosed(&'a Name, bool),
    Entries(u32),
}

fn is_met(store: &mut Store, alloc: Global, ask: &Ask<'_>) -> bool {
    match ask {
        Ask::Keep(key, body, wanted) => keep(store, alloc, key, body) == *wanted,
        Ask::KeepEach => keeps_each(store, alloc),
        Ask::FindEach(times) => (0..*times).all(|_| finds_each(store)),
        Ask::Load(key, wanted) => load(store, key, &mut [0; 4096]) == *wanted,
        Ask::Has(key, wanted) => store.kept(key).is_some() == *wanted,
        Ask::IsClosed(name, wanted) => store.is_closed(name) == *wanted,
        Ask::Entries(count) => store.entries() == *count,
    }
}

fn keeps_each(store: &mut Store, alloc: Global) -> bool {
    for number in 0..MOST {
        if keep(store, alloc, &numbered(number), b"a") != Some(Ok(())) {
            return false;
        }
    }
    true
}

fn unlike(alloc: Global, name: &str, asks: &[Ask<'_>]) -> Result<String, OutOfMemory> {
    let mut store = Store::new(alloc)?;
    told(alloc, name, first_unlike(&mut store, alloc, asks))
}

fn first_unlike(store: &mut Store, alloc: Global, asks: &[Ask<'_>]) -> Option<usize> {
    for (place, ask) in asks.iter().enumerate() {
        if !is_met(store, alloc, ask) {
            return Some(place);
        }
    }
    None
}

/// The key of `B_NAME`.
const B: &[u8] = b"http://h/b";

const LOST: &[Ask<'static>] = &[
    Ask::Keep(A, CHUNK, Some(Ok(()))),
    Ask::Keep(B, CHUNK, Some(Ok(()))),
    Ask::Load(
        A,
        Some(Err(LoadFault::Short {
            wanted: 4096,
            got: 4095,
        })),
    ),
    Ask::Has(A, false),
    Ask::IsClosed(&A_NAME, true),
    Ask::Has(B, true),
    Ask::IsClosed(&B_NAME, false),
];

#[test]
fn a_chunk_that_is_not_read_whole_loses_its_entry_alone(rt: HostRuntime) -> Result<(), Fail> {
    says_nothing(&rt, unlike(rt.alloc(), "lost", LOST))
}

const FULL: &[Ask<'static>] = &[
    Ask::KeepEach,
    // So many that a search of one entry after another does not end in time.
    Ask::FindEach(500),
    Ask::Has(b"http://h/x", false),
    Ask::Keep(b"http://h/x", b"a", Some(Err(KeepFault::Full))),
    Ask::Entries(MOST),
];

#[test]
fn of_10000_entries_each_is_found_and_no_other_is_made(rt: HostRuntime) -> Result<(), Fail> {
    says_nothing(&rt, unlike(rt.alloc(), "full", FULL))
}

const TOO_LONG: &[Ask<'static>] = &[
    Ask::Keep(&[b'x'; 8192], b"a", Some(Err(KeepFault::TooLong))),
    Ask::Entries(0),
];

#[test]
fn a_key_that_the_head_block_has_no_room_for_is_not_kept(rt: HostRuntime) -> Result<(), Fail> {
    says_nothing(&rt, unlike(rt.alloc(), "too long", TOO_LONG))
}
