// Courses: a life over a folder, call by call, and what its crashes leave.
ghost use Rattle.std.specs.Prelude.{IfOk};
ghost use Rattle.pp_memworld.specs.Slots.{AreListed};

use crate::acts::{Act, did_just, fill, has, is_met, loads};
use crate::entries::{BESIDE, Entry, File, TWO, noise};
use crate::format::{Found, found_in};
use crate::given::TIMES_READ;
use crate::life::{Life, Morning, Opened};
use crate::steps::Step;
use pp_memworld::put_file;
use pp_text::{Octets, OutOfMemory};
use pp_world::Image;
use std::alloc::Global;

#[derive(Clone, Copy)]
pub struct Course<'a> {
    pub name: &'static str,
    /// The files that it wakes to.
    pub folder: &'a [File],
    /// The numbers of the calls that fail, counted from 1, in a life for each list of them.
    pub failing: &'static [&'static [u64]],
    /// Whether `BESIDE` is kept whole before all else. Then it is found whole, and loaded, behind all acts and behind each crash.
    pub is_beside: bool,
    pub acts: &'static [Act],
    /// Files that stand behind a crash at the end, be what is loose the old bytes or the new.
    pub files: &'a [File],
    pub crashes: &'static [Crash],
}

/// A life in which nothing is done.
pub const QUIET: Course<'static> = Course {
    name: "",
    folder: &[],
    failing: &[&[]],
    is_beside: false,
    acts: &[],
    files: &[],
    crashes: &[],
};

/// Crashes behind so many happenings of a life, each by each of these choices; and what is left of an entry. The next life
/// finds just that, and can keep and load the rest.
#[derive(Clone, Copy)]
pub struct Crash {
    pub of: &'static Entry,
    pub at: At,
    pub choices: &'static [u64],
    /// One of these is found.
    pub left: &'static [Found],
    /// The first gates of its file.
    pub gates: &'static [u8],
    /// What the next life does once it has listed the folder, if that is asked.
    pub mends: Option<&'static [Step]>,
}

#[derive(Clone, Copy)]
pub enum At {
    Behind(&'static [usize]),
    End,
}

/// From this choice on a crash tears: each loose byte is the old one or the new one, and each of the files in doubt may stand.
pub const TORN: u64 = 1 << 63;

/// What stood before, what was to stand, and any by the seed of a generator, or torn.
pub const CHOICES: &[u64] = &[0, 1, 2, 3, 71, TORN, TORN + 1, u64::MAX];

/// Nothing is to be mended.
pub const CRASH: Crash = Crash {
    of: TWO,
    at: At::End,
    choices: &[0],
    left: &[],
    gates: &[],
    mends: Some(&[]),
};

/// Where these courses go otherwise than they are written down: nothing is said where none does.
pub fn unlike(alloc: Global, courses: &[Course<'_>]) -> Result<String, OutOfMemory> {
    let body = noise(99);
    for course in courses {
        for failing in course.failing {
            let image = image_of(alloc, &body, course.folder)?;
            let (part, place) = match Morning::over(alloc, image, *failing)?.open(alloc) {
                Opened::Life(mut life) => first_unlike(&mut life, alloc, &body, course)?,
                Opened::Refused(_, _) => ("folder", 0),
            };
            if !part.is_empty() {
                return Ok(format!(in alloc; "{}: {part} {place}", course.name)?);
            }
        }
    }
    Ok(String::new(alloc))
}

/// A folder with these files.
pub fn image_of(alloc: Global, body: &[u8], files: &[File]) -> Result<Image, OutOfMemory>
    ensures listed { IfOk result AreListed }
{
    let mut image = Image::new(alloc);
    for file in files {
        let bytes = Octets::copy(alloc, &file.bytes(alloc, body)?)?;
        put_file(&mut image, file.name, bytes)?;
    }
    Ok(image)
}

/// The first part of a course that goes otherwise, and its place in it.
fn first_unlike(
    life: &mut Life,
    alloc: Global,
    body: &[u8],
    course: &Course<'_>,
) -> Result<(&'static str, usize), OutOfMemory> {
    if course.is_beside && !fill(life, alloc, BESIDE, body) {
        return Ok(("beside", 0));
    }
    for (place, act) in course.acts.iter().enumerate() {
        if !is_met(life, alloc, body, act) {
            return Ok(("act", place));
        }
    }
    for (place, file) in course.files.iter().enumerate() {
        if !is_standing(life, alloc, body, file)? {
            return Ok(("file", place));
        }
    }
    for (place, crash) in course.crashes.iter().enumerate() {
        if !is_left(life, alloc, body, crash, course.is_beside)? {
            return Ok(("crash", place));
        }
    }
    if course.is_beside && !loads(life, BESIDE, body, 8192) {
        return Ok(("beside", 1));
    }
    Ok(("", 0))
}

/// Whether a file stands behind a crash at the end.
fn is_standing(life: &Life, alloc: Global, body: &[u8], file: &File) -> Result<bool, OutOfMemory> {
    let bytes = file.bytes(alloc, body)?;
    for choice in [0, 1] {
        match life.next(alloc, life.log().len(), choice)? {
            Some(next) if next.file(&file.name) == Some(bytes.as_slice()) => {}
            _ => return Ok(false),
        }
    }
    Ok(true)
}

/// Whether each of these crashes leaves what it should.
fn is_left(
    life: &Life,
    alloc: Global,
    body: &[u8],
    crash: &Crash,
    is_beside: bool,
) -> Result<bool, OutOfMemory> {
    let end = [life.log().len()];
    for at in places(crash.at, &end) {
        for choice in crash.choices {
            let Some(mut next) = life.next(alloc, *at, *choice)? else {
                return Ok(false);
            };
            if !goes_on(&mut next, alloc, body, crash, is_beside) {
                return Ok(false);
            }
        }
    }
    Ok(true)
}

fn places(at: At, end: &[usize; 1]) -> &[usize] {
    match at {
        At::Behind(places) => places,
        At::End => end,
    }
}

/// Whether a life behind a crash finds what it should, mends what it should, and can keep and load the rest.
fn goes_on(life: &mut Life, alloc: Global, body: &[u8], crash: &Crash, is_beside: bool) -> bool {
    let found = found_in(life.file(&crash.of.name), crash.of, body);
    crash.left.contains(&found)
        && has_gates(life, crash)
        && has_mended(life, body, crash)
        && has_just(life, crash.of, found, is_beside)
        && (!is_beside || finds_beside(life, body))
        && fill(life, alloc, crash.of, body)
        && loads(life, crash.of, body, crash.of.length)
}

fn has_gates(life: &Life, crash: &Crash) -> bool {
    let file = life.file(&crash.of.name).unwrap_or(&[]);
    file.get(8192..).unwrap_or(&[]).starts_with(crash.gates)
}

fn has_mended(life: &Life, body: &[u8], crash: &Crash) -> bool {
    match crash.mends {
        Some(steps) => did_just(life, crash.of, body, steps),
        None => true,
    }
}

/// Whether just that is kept of an entry which was found, and at most the other beside it.
fn has_just(life: &Life, entry: &Entry, found: Found, is_beside: bool) -> bool {
    let count = life.store().entries().saturating_sub(u32::from(is_beside));
    match found {
        Found::Entry(extent) => count == 1 && has(life, entry, extent, &TIMES_READ),
        Found::Nothing | Found::Other => {
            count == 0 && life.extent(entry.key).is_none() && !life.store().is_closed(&entry.name)
        }
    }
}

fn finds_beside(life: &mut Life, body: &[u8]) -> bool {
    found_in(life.file(&BESIDE.name), BESIDE, body) == Found::Entry(8192)
        && has(life, BESIDE, 8192, &TIMES_READ)
        && loads(life, BESIDE, body, 8192)
}
