// The names in a folder.
ghost use Rattle.std.specs.Prelude.{◌≡◌, ◌≤◌, IsTrue, Some, None, cond, length, IfOk, OnOk};
ghost use Rattle.std.specs.List.{list_all};
ghost use Rattle.pp_world.specs.Disk.{AreNames, is_name, is_name_byte, is_rising};

use pp_world::{Name, NamesFault};
use std::alloc::{AllocError, Global};
use std::collections::BTreeSet;
use std::fs::{File, FileType};
use std::io::ErrorKind;
use std::rt::{Files, Runtime};
use std::{fs, io};

/// How many names are listed at most.
const MOST_NAMES: usize = 65_536;

/// The names of 32 lower hexadecimal digits in a folder, in the order of their bytes, and at most the first
/// `MOST_NAMES`. What is known to be no file, as a folder or a pipe, is left out: to open it might wait.
///
/// Each file is synced, since a program that was stopped may have left bytes that are read and do not stand
/// yet. One that cannot be is left out too: what is read of it might not be what the disk has.
pub fn names<R: Runtime + Files<File = File>>(
    rt: &R,
    alloc: Global,
    folder: &str,
) -> Result<Vec<Name>, NamesFault>
    ensures { IfOk result (λ names. AreNames names.items) }
{
    let entries = match fs::read_dir(rt, folder) {
        Ok(entries) => entries,
        Err(e) => return Err(cause(&e)),
    };
    let mut least = BTreeSet::new(alloc);
    for entry in entries {
        match entry {
            Ok(entry) => {
                if let Some(name) = as_name(entry.file_name())
                    && may_be_file(&entry.file_type())
                    && sync(rt, entry.path().as_str()).is_ok()
                    && keep(&mut least, name).is_err()
                {
                    return Err(NamesFault::OutOfMemory);
                }
            }
            // Not even text.
            Err(e) if e.kind() == ErrorKind::InvalidFilename => {}
            Err(e) => return Err(cause(&e)),
        }
    }
    match in_order(alloc, &least) {
        Ok(names) => Ok(names),
        Err(AllocError) => Err(NamesFault::OutOfMemory),
    }
}

// Also where the system does not say: then its reads fail, and that costs this one name.
fn may_be_file(kind: &io::Result<FileType>) -> bool {
    match kind {
        Ok(kind) => kind.is_file(),
        Err(_) => true,
    }
}

// Makes what the file holds stand through a crash.
fn sync<R: Files<File = File>>(files: &R, path: &str) -> io::Result<()> {
    File::open(files, path)?.sync_data()
}

fn cause(error: &io::Error) -> NamesFault {
    if error.kind() == ErrorKind::OutOfMemory {
        NamesFault::OutOfMemory
    } else {
        NamesFault::Disk
    }
}

// The name, if it has the form of one.
fn as_name(text: &str) -> Option<Name>
    ensures { result ≡ cond (is_name text.now) (Some text.now) None }
{
    let name = Name::try_from(text.as_bytes()).ok()?;
    if is_hex(&name) { Some(name) } else { None }
}

fn is_hex(name: &[u8]) -> bool
    ensures { result ≡ list_all is_name_byte name.now }
{
    name.iter()
        .all(|byte| matches!(*byte, b'0'..=b'9' | b'a'..=b'f'))
}

// One name more. Where there are too many, the greatest goes.
fn keep(least: &mut BTreeSet<Name>, name: Name) -> Result<(), AllocError>
    requires form { IsTrue (list_all is_name least.old.keys) }
    requires few { length least.old.keys ≤ MOST_NAMES }
    requires name { IsTrue (is_name name) }
    ensures form { OnOk result (IsTrue (list_all is_name least.new.keys)) }
    ensures few { OnOk result (length least.new.keys ≤ MOST_NAMES) }
{
    least.insert(name)?;
    if least.len() > MOST_NAMES {
        least.pop_last();
    }
    Ok(())
}

fn in_order(alloc: Global, least: &BTreeSet<Name>) -> Result<Vec<Name>, AllocError>
    ensures names { IfOk result (λ names. names.items ≡ least.now.keys) }
    ensures order { IsTrue (is_rising least.now.keys) }
{
    least.iter().copied().collect(alloc)
}
