// The folder of files: where it stands, the lock on it, and the calls on its files.
//
// A write that did not reach the disk is told once, to the next sync of a file that was open then; one that is closed before,
// and found anew by its name, may tell nothing (fsync(2), 'ERRORS'). So what was written is synced by the handle that wrote it.
ghost use Rattle.std.specs.Prelude.{◌≤◌, length, IfOk};
ghost use Rattle.pp_world.specs.Disk.{AreNames};

use crate::held::{Held, is_held, take_held};
use crate::listing;
use crate::place::{PATH_LEN, joined, make, path_of_folder};
use arrayvec::ArrayString;
use pp_world::{Name, NamesFault};
use std::alloc::Global;
use std::fs::{File, OpenOptions};
use std::io::{ErrorKind, Write};
use std::os::unix::fs::{FileExt, MetadataExt, OpenOptionsExt};
use std::rt::{Files, Runtime};
use std::{fs, io};

/// The draft has a name that no other file of the folder is given.
const DRAFT: &[u8] = b"draft";

/// A file is for the user of the proxy alone.
const FILE_MODE: u32 = 0o600;

/// The folder of files.
#[derive(Drop)]
pub enum Folder {
    /// None was opened, or it failed.
    Closed,
    /// It is there, and no other program holds it so.
    Open(Root),
}

#[derive(Drop)]
pub struct Root {
    // With a slash at its end, so that nothing but a folder is opened by it.
    path: ArrayString<PATH_LEN>,
    // The folder itself. It carries the lock, and the names in it are synced through it.
    handle: File,
    // The draft, since all its bytes were written.
    drafted: Option<File>,
    // The file that was written last.
    written: Option<Held>,
    // The file that was read last, since its pieces are read one after another.
    read: Option<Held>,
}

impl Folder {
    /// Opens the folder. It is made where it is not there, but no folder above it is. The names in it stand through a crash
    /// from then on, though a program that was stopped may have left some that did not.
    pub fn open<R: Files<File = File>>(files: &R, folder: &[u8]) -> io::Result<Folder> {
        let path = path_of_folder(folder)?;
        make(files, path.as_str())?;
        let handle = File::open(files, path.as_str())?;
        handle.try_lock()?;
        handle.sync_all()?;
        Ok(Folder::Open(Root {
            path,
            handle,
            drafted: None,
            written: None,
            read: None,
        }))
    }

    fn root(&mut self) -> io::Result<&mut Root> {
        match self {
            Folder::Open(root) => Ok(root),
            Folder::Closed => Err(io::Error::from(ErrorKind::NotFound)),
        }
    }

    /// The names of 32 lower hexadecimal digits, in order.
    pub fn names<R: Runtime + Files<File = File>>(
        &self,
        rt: &R,
        alloc: Global,
    ) -> Result<Vec<Name>, NamesFault>
        ensures { IfOk result (λ names. AreNames names.items) }
    {
        match self {
            Folder::Open(root) => listing::names(rt, alloc, root.path.as_str()),
            Folder::Closed => Err(NamesFault::Disk),
        }
    }

    /// Whether the path names another folder by now, or none.
    pub fn is_moved<R: Files>(&self, files: &R) -> bool {
        match self {
            Folder::Open(root) => !root.is_in_place(files),
            Folder::Closed => false,
        }
    }

    /// How many bytes the file has: 0 where there is none.
    pub fn length<R: Files>(&mut self, files: &R, name: &Name) -> io::Result<u64> {
        match fs::metadata(files, self.root()?.path(name)?.as_str()) {
            Ok(found) => Ok(found.len()),
            Err(e) if e.kind() == ErrorKind::NotFound => Ok(0),
            Err(e) => Err(e),
        }
    }

    /// Reads the file from an offset on, as far as it or the buffer goes. Where there is no file,
    /// nothing is read.
    pub fn read<R: Files<File = File>>(
        &mut self,
        files: &R,
        name: &Name,
        at: u64,
        buf: &mut [u8],
    ) -> io::Result<usize>
        ensures { IfOk result (λ n. n ≤ length buf.new) }
    {
        let root = self.root()?;
        let held = match root.reader(files, name) {
            Ok(held) => held,
            Err(e) if e.kind() == ErrorKind::NotFound => return Ok(0),
            Err(e) => return Err(e),
        };
        let count = read_from(&held.file, at, buf)?;
        root.read = Some(held);
        Ok(count)
    }

    /// Makes the draft hold just these bytes.
    pub fn draft<R: Files<File = File>>(&mut self, files: &R, bytes: &[u8]) -> io::Result<()> {
        let root = self.root()?;
        root.drafted = None;
        let mut file = OpenOptions::new()
            .write(true)
            .create(true)
            .truncate(true)
            .mode(FILE_MODE)
            .open(files, root.path(DRAFT)?.as_str())?;
        file.write_all(bytes)?;
        root.drafted = Some(file);
        Ok(())
    }

    /// Makes what the draft holds stand through a crash. Where that fails, there is no draft any more.
    pub fn sync_draft(&mut self) -> io::Result<()> {
        let root = self.root()?;
        let file = root.take_draft()?;
        file.sync_data()?;
        root.drafted = Some(file);
        Ok(())
    }

    /// Makes the draft the file of this name, in one step.
    pub fn publish<R: Files>(&mut self, files: &R, name: &Name) -> io::Result<()> {
        let root = self.root()?;
        let file = root.take_draft()?;
        root.let_go(name);
        fs::rename(files, root.path(DRAFT)?.as_str(), root.path(name)?.as_str())?;
        root.handle.sync_all()?;
        root.written = Some(Held::of(*name, file));
        Ok(())
    }

    /// Writes over a file that is there, from an offset on.
    pub fn write<R: Files<File = File>>(
        &mut self,
        files: &R,
        name: &Name,
        at: u64,
        bytes: &[u8],
    ) -> io::Result<()> {
        let root = self.root()?;
        let held = root.writer(files, name)?;
        held.file.write_all_at(bytes, at)?;
        root.written = Some(held);
        Ok(())
    }

    /// Makes what the file holds stand through a crash.
    pub fn sync<R: Files<File = File>>(&mut self, files: &R, name: &Name) -> io::Result<()> {
        let root = self.root()?;
        if !is_held(&root.written, name) {
            return open_file(files, root.path(name)?.as_str())?.sync_data();
        }
        let held = root.writer(files, name)?;
        held.file.sync_data()?;
        root.written = Some(held);
        Ok(())
    }

    /// Takes the file away. That there was none is no fault: also then the folder is synced, since a
    /// removal may stand in it that no crash was to undo.
    pub fn remove<R: Files>(&mut self, files: &R, name: &Name) -> io::Result<()> {
        let root = self.root()?;
        root.let_go(name);
        match fs::remove_file(files, root.path(name)?.as_str()) {
            Ok(()) => {}
            Err(e) if e.kind() == ErrorKind::NotFound => {}
            Err(e) => return Err(e),
        }
        root.handle.sync_all()
    }
}

impl Root {
    fn is_in_place<R: Files>(&self, files: &R) -> bool {
        match (
            fs::metadata(files, self.path.as_str()),
            self.handle.metadata(),
        ) {
            (Ok(there), Ok(held)) => there.dev() == held.dev() && there.ino() == held.ino(),
            (Ok(_), Err(_)) | (Err(_), _) => false,
        }
    }

    fn path(&self, name: &[u8]) -> io::Result<ArrayString<PATH_LEN>> {
        let Ok(name) = str::from_utf8(name) else {
            return Err(io::Error::from(ErrorKind::InvalidFilename));
        };
        joined(self.path, name)
    }

    // The handle that read this file last, or a new one.
    fn reader<R: Files<File = File>>(&mut self, files: &R, name: &Name) -> io::Result<Held> {
        match take_held(&mut self.read, name) {
            Some(held) => Ok(held),
            None => {
                let path = self.path(name)?;
                Ok(Held::of(*name, open_file(files, path.as_str())?))
            }
        }
    }

    fn take_draft(&mut self) -> io::Result<File> {
        match self.drafted.take() {
            Some(file) => Ok(file),
            None => Err(io::Error::from(ErrorKind::NotFound)),
        }
    }

    // The handle that wrote this file last, or a new one.
    fn writer<R: Files<File = File>>(&mut self, files: &R, name: &Name) -> io::Result<Held> {
        match take_held(&mut self.written, name) {
            Some(held) => Ok(held),
            None => {
                let path = self.path(name)?;
                expect_file(files, path.as_str())?;
                let file = OpenOptions::new().write(true).open(files, path.as_str())?;
                Ok(Held::of(*name, file))
            }
        }
    }

    // Holds the file of this name no more, since another is to stand there, or none.
    fn let_go(&mut self, name: &Name) {
        if is_held(&self.written, name) {
            self.written = None;
        }
        if is_held(&self.read, name) {
            self.read = None;
        }
    }
}

/// What is no file, as a folder or a pipe that was put in its place, is not opened: to open it might wait.
fn expect_file<R: Files>(files: &R, path: &str) -> io::Result<()> {
    if fs::metadata(files, path)?.is_file() {
        Ok(())
    } else {
        Err(io::Error::from(ErrorKind::InvalidInput))
    }
}

fn open_file<R: Files<File = File>>(files: &R, path: &str) -> io::Result<File> {
    expect_file(files, path)?;
    File::open(files, path)
}

fn read_from(file: &File, at: u64, buf: &mut [u8]) -> io::Result<usize>
    ensures { IfOk result (λ n. n ≤ length buf.new) }
{
    let mut taken = 0;
    for _ in 0..u64::MAX {
        if taken == buf.len() {
            break;
        }
        let rest = &mut buf[taken..];
        match file.read_at(rest, at.saturating_add(taken as u64)) {
            Ok(0) => break,
            Ok(n) => taken += n,
            Err(e) if e.kind() == ErrorKind::Interrupted => {}
            Err(e) => return Err(e),
        }
    }
    Ok(taken)
}
