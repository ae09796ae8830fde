// Scripts played over a world in memory, turn by turn: what is reported, what is read and written, and what is told.
use crate::lives::no_script;
use crate::outcome::Unlike;
use crate::scripts::{Hint, Site, script_of};
use crate::telling::tells;
use arrayvec::ArrayVec;
use pp_memworld::MemWorld;
use pp_text::{Octets, OutOfMemory};
use pp_world::{
    AccessLog, Cause, ConfigFault, Door, Event, Got, Happening, Image, Note, Wants, Wire, WireFault,
};
use std::alloc::Global;

/// How many bytes a read takes at most.
const READ_LEN: usize = 256;

/// A turn, and what it is to give. None: the world may not be called so, since that connection is not open.
#[derive(Clone, Copy)]
pub enum Turn<'a> {
    /// Whether a client may be accepted, and whose bytes and room are waited for.
    Next(bool, &'a [u64], &'a [u64], Event),
    /// By a buffer so long.
    Read(u64, usize, Option<Result<Got, WireFault>>),
    /// The bytes that were read.
    Found(u64, usize, &'a [u8]),
    Write(u64, &'a [u8], Option<Result<usize, WireFault>>),
    /// An ask in two pieces is answered by these bytes, and only once it is whole.
    Ask(u64, &'a [u8], &'a [u8]),
    /// Whether it was open.
    Close(u64, bool),
    Dial(&'a [u8], u16, Result<u64, WireFault>),
    Listen(u16, Result<(), WireFault>),
    /// The text, if it can be read.
    Config(Option<&'a [u8]>),
    Note,
    Print(&'a [u8]),
    /// After so many happenings, by the choice 0; in the next life the calls of these numbers fail. Whether there were so
    /// many.
    Crash(usize, &'a [u64], bool),
    IsOpen(u64, bool),
    /// All that is told.
    Told(&'a [&'a str]),
    /// The place of a dial in the log, its number and its port.
    ToldDial(usize, u64, u16),
}

/// A world with this script, and how it is called.
pub struct Course<'a> {
    pub name: &'a str,
    pub hints: &'a [Hint<'a>],
    /// The pages that answer by themselves.
    pub site: &'a [Site<'a>],
    pub failing: &'a [u64],
    pub config: &'a [u8],
    pub turns: &'a [Turn<'a>],
}

/// The first of these courses that goes otherwise than it is written down.
pub fn unlike<'a>(alloc: Global, courses: &[Course<'a>]) -> Option<Unlike<'a>> {
    for course in courses {
        if let Some((part, place)) = part_unlike(alloc, course) {
            return Some(Unlike {
                course: course.name,
                part,
                place,
            });
        }
    }
    None
}

fn part_unlike(alloc: Global, course: &Course<'_>) -> Option<(&'static str, usize)> {
    match begin(alloc, course) {
        Ok(mut world) => turn_unlike(&mut world, alloc, course.turns),
        Err(OutOfMemory) => Some(("memory", 0)),
    }
}

fn turn_unlike(
    world: &mut MemWorld,
    alloc: Global,
    turns: &[Turn<'_>],
) -> Option<(&'static str, usize)> {
    for (place, turn) in turns.iter().enumerate() {
        if !is_met(world, alloc, *turn) {
            return Some(("turn", place));
        }
    }
    None
}

fn begin(alloc: Global, course: &Course<'_>) -> Result<MemWorld, OutOfMemory> {
    let script = script_of(alloc, course.hints, course.site)?;
    let failing = Vec::from_slice(alloc, course.failing)?;
    let config = Octets::copy(alloc, course.config)?;
    let mut world = MemWorld::new(alloc, script, Image::new(alloc), failing)?;
    world.set_config(config);
    Ok(world)
}

pub fn wants(accept: bool, read: &[u64], write: &[u64]) -> Wants {
    let mut wants = Wants {
        accept,
        read: ArrayVec::new(),
        write: ArrayVec::new(),
    };
    let _ = wants.read.try_extend_from_slice(read);
    let _ = wants.write.try_extend_from_slice(write);
    wants
}

fn is_met(world: &mut MemWorld, alloc: Global, turn: Turn<'_>) -> bool {
    match turn {
        Turn::Next(accept, read, write, event) => {
            world.next(&wants(accept, read, write)) == event
        }
        Turn::Read(id, len, wanted) => reads(world, id, len, wanted),
        Turn::Found(id, len, wanted) => finds(world, id, len, wanted),
        Turn::Write(id, bytes, wanted) => write(world, id, bytes) == wanted,
        Turn::Ask(id, ask, wanted) => is_answered(world, id, ask, wanted),
        Turn::Close(id, wanted) => close(world, id) == wanted,
        Turn::Dial(host, port, wanted) => world.dial(host, port) == wanted,
        Turn::Listen(port, wanted) => listen(world, port) == wanted,
        Turn::Config(wanted) => is_config(world.config(alloc, "f"), wanted),
        Turn::Note => {
            world.note(&Note::Cut(1, Cause::Stop));
            true
        }
        Turn::Print(bytes) => {
            world.print(bytes);
            true
        }
        Turn::Crash(at, failing, wanted) => crash(world, alloc, at, failing) == Some(wanted),
        Turn::IsOpen(id, wanted) => world.is_open(id) == wanted,
        Turn::Told(names) => tells(world, names),
        Turn::ToldDial(place, id, port) => is_dialled(world, place, id, port),
    }
}

fn listen(world: &mut MemWorld, port: u16) -> Result<(), WireFault> {
    world.listen(&Door {
        address: 0,
        port,
        allowed: &[],
        access_log: AccessLog::Nowhere,
    })
}

fn reads(
    world: &mut MemWorld,
    id: u64,
    len: usize,
    wanted: Option<Result<Got, WireFault>>,
) -> bool {
    let mut buf = [0; READ_LEN];
    read(world, id, &mut buf[..len.min(READ_LEN)]) == wanted
}

fn read(world: &mut MemWorld, id: u64, buf: &mut [u8]) -> Option<Result<Got, WireFault>> {
    if buf.is_empty() || !world.is_open(id) {
        return None;
    }
    Some(world.read(id, buf))
}

fn finds(world: &mut MemWorld, id: u64, len: usize, wanted: &[u8]) -> bool {
    let mut buf = [0; READ_LEN];
    let front = &mut buf[..len.min(READ_LEN)];
    read(world, id, front) == Some(Ok(Got::Bytes(wanted.len())))
        && front.get(..wanted.len()) == Some(wanted)
}

fn write(world: &mut MemWorld, id: u64, bytes: &[u8]) -> Option<Result<usize, WireFault>> {
    if bytes.is_empty() || !world.is_open(id) {
        return None;
    }
    Some(world.write(id, bytes))
}

fn close(world: &mut MemWorld, id: u64) -> bool {
    if !world.is_open(id) {
        return false;
    }
    world.close(id);
    true
}

fn is_answered(world: &mut MemWorld, id: u64, ask: &[u8], wanted: &[u8]) -> bool {
    let Some((last, front)) = ask.split_last() else {
        return false;
    };
    let mut buf = [0; READ_LEN];
    let wrote = write(world, id, front) == Some(Ok(front.len()));
    let waited = read(world, id, &mut buf) == Some(Ok(Got::NotYet));
    let ended = write(world, id, &[*last]) == Some(Ok(1));
    wrote && waited && ended && finds(world, id, READ_LEN, wanted)
}

fn is_config(found: Result<Octets, ConfigFault>, wanted: Option<&[u8]>) -> bool {
    match (found, wanted) {
        (Ok(text), Some(wanted)) => text.as_slice() == wanted,
        (Err(ConfigFault::Unreadable), None) => true,
        _ => false,
    }
}

/// Goes on in the next life: whether there is one. None: for want of memory that is not known.
fn crash(world: &mut MemWorld, alloc: Global, at: usize, failing: &[u64]) -> Option<bool> {
    match crashed(world, alloc, at, failing) {
        Ok(Some(next)) => {
            *world = next;
            Some(true)
        }
        Ok(None) => Some(false),
        Err(OutOfMemory) => None,
    }
}

fn crashed(
    world: &MemWorld,
    alloc: Global,
    at: usize,
    failing: &[u64],
) -> Result<Option<MemWorld>, OutOfMemory> {
    let failing = Vec::from_slice(alloc, failing)?;
    world.crash(alloc, at, 0, no_script(alloc), failing)
}

fn is_dialled(world: &MemWorld, place: usize, id: u64, port: u16) -> bool {
    let Some(log) = world.log() else {
        return false;
    };
    match log.get(place) {
        Some(Happening::Dialled(dialled, _, to)) => *dialled == id && *to == port,
        _ => false,
    }
}
