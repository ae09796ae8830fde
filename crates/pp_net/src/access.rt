// The operator's log: where its lines go, and what becomes of those that cannot be written.
//
// Lines wait until the system is asked, or until they are many. A call that fails keeps them; they are written again at the next
// second, and while it lasts those that find no room are counted. That is said once, and once more when it works again.
ghost use Rattle.std.specs.Prelude.{◌≤◌, length};

use crate::console;
use arrayvec::ArrayString;
use pp_access::{Line, put_line};
use pp_world::AccessLog;
use std::alloc::Global;
use std::fs::{File, OpenOptions};
use std::io::{ErrorKind, Write};
use std::os::unix::fs::{FileTypeExt, MetadataExt, OpenOptionsExt};
use std::rt::{Files, Runtime};
use std::time::Instant;
use std::{fs, io};

/// The longest name of a log, in bytes.
const NAME_LEN: usize = 255;

/// Where so many bytes wait, they are written, and while that fails no line joins them.
const FULL: usize = 65_536;

/// The log is for the user of the proxy alone: it names what its clients asked for.
const LOG_MODE: u32 = 0o600;

/// Said once, where the log cannot be written.
const FAILS_LINE: &[u8] = b"polipo: cannot write the access log\n";

/// Where the lines go.
#[derive(Drop)]
enum Place {
    Nowhere,
    Console,
    /// To the end of the file of this name, while it is open.
    File(ArrayString<NAME_LEN>, Option<File>),
}

/// Whether lines can be written.
///
/// ```text
/// Sound   -> Failing   a call failed: it is said     [fail]
/// Failing -> Sound     it works again: it is said    [mend]
/// ```
#[derive(Clone, Copy)]
enum Health {
    Sound,
    /// So many lines were lost since.
    Failing(u64),
}

/// The log of replies.
#[derive(Drop)]
pub struct Access {
    place: Place,
    // Lines, or the rest of them, that wait to be written.
    lines: Vec<u8>,
    health: Health,
}

impl Access {
    pub fn nowhere(alloc: Global) -> Access {
        Access {
            place: Place::Nowhere,
            lines: Vec::new(alloc),
            health: Health::Sound,
        }
    }

    /// From now on lines go there.
    pub fn open<R: Runtime + Files<File = File>>(&mut self, rt: &R, log: AccessLog<'_>) {
        self.place = match log {
            AccessLog::Nowhere => Place::Nowhere,
            AccessLog::Console => Place::Console,
            AccessLog::File(name) => match ArrayString::from(name) {
                Ok(name) => Place::File(name, None),
                Err(_) => Place::Nowhere,
            },
        };
        self.write(rt);
    }

    pub fn is_kept(&self) -> bool {
        !matches!(self.place, Place::Nowhere)
    }

    /// The time, where it is measured: there is a log.
    pub fn now<R: Runtime>(&self, rt: &R) -> Option<Instant> {
        if self.is_kept() {
            Instant::now(rt).ok()
        } else {
            None
        }
    }

    /// Adds a line.
    pub fn put<R: Runtime + Files<File = File>>(&mut self, rt: &R, line: &Line<'_>) {
        let len = self.lines.len();
        if len >= FULL || put_line(line, &mut self.lines).is_err() {
            self.lines.truncate(len);
            self.lose(rt);
        } else if self.lines.len() >= FULL {
            self.flush(rt);
        }
    }

    /// Writes what waits, unless that failed since the second began.
    pub fn flush<R: Runtime + Files<File = File>>(&mut self, rt: &R) {
        if !self.lines.is_empty() && matches!(self.health, Health::Sound) {
            self.write(rt);
        }
    }

    /// No line comes any more: what waits is written, once more where that failed.
    pub fn end<R: Runtime + Files<File = File>>(&mut self, rt: &R) {
        if !self.lines.is_empty() {
            self.write(rt);
        }
    }

    /// A second began: a file that was moved away is left, and what failed is tried again.
    pub fn tick<R: Runtime + Files<File = File>>(&mut self, rt: &R) {
        if self.is_moved(rt) {
            self.write(rt);
            self.let_go();
            self.write(rt);
        } else if matches!(self.health, Health::Failing(_)) {
            self.write(rt);
        }
    }

    // Whether the name is that of another file by now, or of none.
    fn is_moved<R: Files>(&self, files: &R) -> bool {
        match &self.place {
            Place::File(name, Some(file)) => !is_there(files, name.as_str(), file),
            Place::Nowhere | Place::Console | Place::File(_, None) => false,
        }
    }

    fn let_go(&mut self) {
        if let Place::File(_, file) = &mut self.place {
            *file = None;
        }
    }

    fn write<R: Runtime + Files<File = File>>(&mut self, rt: &R) {
        match write_lines(rt, &mut self.place, &mut self.lines) {
            Ok(()) => self.mend(rt),
            Err(_) => self.fail(rt),
        }
    }

    fn fail<R: Runtime>(&mut self, rt: &R) {
        if let Health::Sound = self.health {
            self.health = Health::Failing(0);
            let _ = console::print(rt, FAILS_LINE);
        }
    }

    fn lose<R: Runtime>(&mut self, rt: &R) {
        self.fail(rt);
        if let Health::Failing(lost) = self.health {
            self.health = Health::Failing(lost.saturating_add(1));
        }
    }

    fn mend<R: Runtime>(&mut self, rt: &R) {
        if let Health::Failing(lost) = self.health {
            self.health = Health::Sound;
            say_again(rt, lost);
        }
    }
}

fn say_again<R: Runtime>(rt: &R, lost: u64) {
    let _ = eprintln!(rt; "polipo: the access log is written again, without {lost} lines");
}

/// Whether this name is that of this file.
fn is_there<R: Files>(files: &R, name: &str, file: &File) -> bool {
    match (fs::metadata(files, name), file.metadata()) {
        (Ok(there), Ok(held)) => there.dev() == held.dev() && there.ino() == held.ino(),
        (Ok(_), Err(_)) | (Err(_), _) => false,
    }
}

/// Writes the lines, and keeps those of them that were not written.
fn write_lines<R: Runtime + Files<File = File>>(
    rt: &R,
    place: &mut Place,
    lines: &mut Vec<u8>,
) -> io::Result<()> {
    match place {
        Place::Nowhere => {}
        Place::Console => {
            if !lines.is_empty() {
                rt.eprint(str::from_utf8(lines.as_slice()).unwrap_or(
                    "polipo: lines that are no text\n",
                ))?;
            }
            lines.clear();
        }
        Place::File(name, file) => {
            if file.is_none() {
                *file = Some(open_at_end(rt, name.as_str())?);
            }
            if let Some(file) = file {
                write_to(file, lines)?;
            }
        }
    }
    Ok(())
}

/// Opens the file to write at its end, and makes it where it is not there. A pipe is not opened: that would wait for its
/// reader.
fn open_at_end<R: Files<File = File>>(files: &R, name: &str) -> io::Result<File> {
    if let Ok(found) = fs::metadata(files, name)
        && found.file_type().is_fifo()
    {
        return Err(io::Error::from(ErrorKind::Unsupported));
    }
    OpenOptions::new()
        .append(true)
        .create(true)
        .mode(LOG_MODE)
        .open(files, name)
}

/// Writes the bytes, and takes out those that were written.
fn write_to(file: &mut File, bytes: &mut Vec<u8>) -> io::Result<()> {
    for _ in 0..u64::MAX {
        if bytes.is_empty() {
            break;
        }
        match file.write(bytes.as_slice()) {
            Ok(0) => return Err(io::Error::from(ErrorKind::WriteZero)),
            Ok(n) => drop_front(bytes, n),
            Err(e) if e.kind() == ErrorKind::Interrupted => {}
            Err(e) => return Err(e),
        }
    }
    Ok(())
}

/// Takes so many bytes away from the front.
fn drop_front(bytes: &mut Vec<u8>, n: usize)
    requires { n ≤ length bytes.old.items }
{
    let kept = bytes.len() - n;
    if kept > 0 {
        bytes.as_mut_slice().copy_within(n.., 0);
    }
    bytes.truncate(kept);
}
