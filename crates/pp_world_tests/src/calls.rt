// Calls on a disk, and what each of them is to give.
use pp_memworld::MemWorld;
use pp_net::NetWorld;
use pp_world::{Disk, DiskFault, Name, NamesFault};
use std::alloc::Global;

/// How many bytes a read takes at most.
const READ_LEN: usize = 16;

/// A call on a disk. A file has a name that is one letter, 32 times.
#[derive(Clone, Copy)]
pub enum Call<'a> {
    Root(&'a [u8]),
    Names,
    Length(u8),
    /// From this offset on, so many bytes at most, and 16 at most.
    Read(u8, u64, usize),
    /// Its length, and all that it has: 16 bytes at most.
    Whole(u8),
    Draft(&'a [u8]),
    SyncDraft,
    Publish(u8),
    Write(u8, u64, &'a [u8]),
    Sync(u8),
    Remove(u8),
}

/// What a call gives.
#[derive(Clone, Copy)]
pub enum Gives<'a> {
    Done,
    Fault,
    /// The disk asks for more than stands there: it is not called.
    Barred,
    Length(u64),
    Bytes(&'a [u8]),
    /// The letters of the names.
    Names(&'a [u8]),
}

pub fn name_of(letter: u8) -> Name {
    [letter; 32]
}

/// A disk whose calls are made only where it can be called.
pub trait Shelf: Disk {
    fn publish_if(&mut self, name: &Name) -> Option<Result<(), DiskFault>>;

    fn write_if(&mut self, name: &Name, at: u64, bytes: &[u8]) -> Option<Result<(), DiskFault>>;
}

impl Shelf for MemWorld {
    fn publish_if(&mut self, name: &Name) -> Option<Result<(), DiskFault>> {
        if self.has_draft() {
            Some(self.publish(name))
        } else {
            None
        }
    }

    fn write_if(&mut self, name: &Name, at: u64, bytes: &[u8]) -> Option<Result<(), DiskFault>> {
        if self.reaches(name, at) {
            Some(Disk::write(self, name, at, bytes))
        } else {
            None
        }
    }
}

impl Shelf for NetWorld<HostRuntime> {
    fn publish_if(&mut self, name: &Name) -> Option<Result<(), DiskFault>> {
        Some(self.publish(name))
    }

    fn write_if(&mut self, name: &Name, at: u64, bytes: &[u8]) -> Option<Result<(), DiskFault>> {
        Some(Disk::write(self, name, at, bytes))
    }
}

/// The first of these calls that gives something else.
pub fn first_unlike<D: Shelf>(
    disk: &mut D,
    alloc: Global,
    calls: &[(Call<'_>, Gives<'_>)],
) -> Option<usize> {
    for (place, (call, wanted)) in calls.iter().enumerate() {
        if !is_given(disk, alloc, *call, *wanted) {
            return Some(place);
        }
    }
    None
}

/// Whether the call gives this.
pub fn is_given<D: Shelf>(disk: &mut D, alloc: Global, call: Call<'_>, wanted: Gives<'_>) -> bool {
    match call {
        Call::Root(folder) => {
            disk.root(folder);
            matches!(wanted, Gives::Done)
        }
        Call::Names => lists(disk.names(alloc), wanted),
        Call::Length(letter) => is_long(disk.length(&name_of(letter)), wanted),
        Call::Read(letter, at, len) => reads(disk, letter, at, len, wanted),
        Call::Whole(letter) => holds(disk, letter, wanted),
        Call::Draft(bytes) => is_done(Some(disk.draft(bytes)), wanted),
        Call::SyncDraft => is_done(Some(disk.sync_draft()), wanted),
        Call::Publish(letter) => is_done(disk.publish_if(&name_of(letter)), wanted),
        Call::Write(letter, at, bytes) => {
            is_done(disk.write_if(&name_of(letter), at, bytes), wanted)
        }
        Call::Sync(letter) => is_done(Some(disk.sync(&name_of(letter))), wanted),
        Call::Remove(letter) => is_done(Some(disk.remove(&name_of(letter))), wanted),
    }
}

fn is_done(done: Option<Result<(), DiskFault>>, wanted: Gives<'_>) -> bool {
    match done {
        Some(Ok(())) => matches!(wanted, Gives::Done),
        Some(Err(DiskFault)) => matches!(wanted, Gives::Fault),
        None => matches!(wanted, Gives::Barred),
    }
}

fn is_long(length: Result<u64, DiskFault>, wanted: Gives<'_>) -> bool {
    match (length, wanted) {
        (Ok(length), Gives::Length(long)) => length == long,
        (Err(DiskFault), Gives::Fault) => true,
        _ => false,
    }
}

fn lists(names: Result<Vec<Name>, NamesFault>, wanted: Gives<'_>) -> bool {
    match (names, wanted) {
        (Ok(names), Gives::Names(letters)) => {
            names.len() == letters.len()
                && names
                    .iter()
                    .zip(letters.iter())
                    .all(|(name, letter)| *name == name_of(*letter))
        }
        (Err(NamesFault::Disk), Gives::Fault) => true,
        _ => false,
    }
}

fn reads<D: Disk>(disk: &mut D, letter: u8, at: u64, len: usize, wanted: Gives<'_>) -> bool {
    let mut buf = [0u8; READ_LEN];
    let front = &mut buf[..len.min(READ_LEN)];
    match (disk.read(&name_of(letter), at, front), wanted) {
        (Ok(count), Gives::Bytes(bytes)) => &front[..count] == bytes,
        (Err(DiskFault), Gives::Fault) => true,
        _ => false,
    }
}

/// Whether the file has just these bytes.
pub fn holds<D: Disk>(disk: &mut D, letter: u8, wanted: Gives<'_>) -> bool {
    let Gives::Bytes(bytes) = wanted else {
        return false;
    };
    disk.length(&name_of(letter)) == Ok(bytes.len() as u64)
        && reads(disk, letter, 0, READ_LEN, wanted)
}
