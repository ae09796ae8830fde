// Where the folder of files stands: its path, and how it is made.
use arrayvec::ArrayString;
use std::fs::{DirBuilder, File};
use std::io;
use std::io::ErrorKind;
use std::os::unix::fs::DirBuilderExt;
use std::path::Path;
use std::rt::Files;

/// The longest path of a file, in bytes: the folder's, which has 255 at most, a slash and a name.
pub const PATH_LEN: usize = 288;

/// The longest path of a folder, in bytes.
const FOLDER_LEN: usize = 255;

/// The folder is for the user of the proxy alone: what one client fetched is not for all users of the machine.
const FOLDER_MODE: u32 = 0o700;

/// The path of a folder, with a slash at its end.
pub fn path_of_folder(folder: &[u8]) -> io::Result<ArrayString<PATH_LEN>> {
    let Ok(folder) = str::from_utf8(folder) else {
        return Err(io::Error::from(ErrorKind::InvalidFilename));
    };
    if folder.len() > FOLDER_LEN {
        return Err(io::Error::from(ErrorKind::InvalidFilename));
    }
    joined(joined(ArrayString::new(), folder)?, "/")
}

/// This path with more at its end.
pub fn joined(path: ArrayString<PATH_LEN>, end: &str) -> io::Result<ArrayString<PATH_LEN>> {
    let mut path = path;
    match path.try_push_str(end) {
        Ok(()) => Ok(path),
        Err(_) => Err(io::Error::from(ErrorKind::InvalidFilename)),
    }
}

/// Makes the folder where it is not there, and its name stand through a crash.
pub fn make<R: Files<File = File>>(files: &R, path: &str) -> io::Result<()> {
    let mut builder = DirBuilder::new();
    builder.mode(FOLDER_MODE);
    match builder.create(files, path) {
        Ok(()) => sync_parent(files, path),
        // Its name may be there and not stand yet, where the program that made it was stopped. That the folder above it may
        // be passed and not read is no fault.
        Err(e) if e.kind() == ErrorKind::AlreadyExists => match sync_parent(files, path) {
            Err(e) if e.kind() == ErrorKind::PermissionDenied => Ok(()),
            synced => synced,
        },
        Err(e) => Err(e),
    }
}

fn sync_parent<R: Files<File = File>>(files: &R, path: &str) -> io::Result<()> {
    match Path::new(path).parent() {
        Some(parent) if parent.as_str().is_empty() => File::open(files, ".")?.sync_all(),
        Some(parent) => File::open(files, parent)?.sync_all(),
        None => Ok(()),
    }
}
