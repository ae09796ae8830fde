// A run of the program that ended, and what it did.

use arrayvec::ArrayVec;
use pp_memworld::{Cue, MemWorld, Script};
use pp_play::boxed;
use pp_run::{Exit, run};
use pp_text::{Octets, OutOfMemory, put_u64};
use pp_world::{Happening, Image};
use std::alloc::{AllocError, Global};

/// How a run ended, and its course, a line for each happening.
#[derive(Drop)]
pub(crate) struct Opened {
    pub(crate) exit: Exit,
    pub(crate) course: Vec<u8>,
}

/// Runs the program with the words of a line, cut at each space, over a world with this file, whose
/// clock ticks twice before it is stopped. The call of that number fails, from 1: reading, listing, listening.
#[tactic(auto, using(pp_shelf::proofs::OpeningLemmas::fresh_first))]
pub(crate) fn open(
    alloc: Global,
    line: &str,
    text: &[u8],
    failing: Option<u64>,
) -> Result<Opened, OutOfMemory> {
    let words = words_of(alloc, line)?;
    let mut cues = Vec::new(alloc);
    for seconds in 1..3 {
        cues.push(Cue::Tick(seconds)).map_err(AllocError::from)?;
    }
    let script = Script {
        cues,
        site: Vec::new(alloc),
    };
    let mut calls = Vec::new(alloc);
    if let Some(call) = failing {
        calls.push(call).map_err(AllocError::from)?;
    }
    let mut world = MemWorld::new(alloc, script, Image::new(alloc), calls)?;
    world.set_config(Octets::copy(alloc, text)?);
    let mut world = boxed(alloc, world)?;
    let exit = run(alloc, words.as_slice(), &mut *world);
    let course = course_of(alloc, world.log().unwrap_or(&[]))?;
    Ok(Opened { exit, course })
}

/// The words of a line; an empty line has none.
fn words_of(alloc: Global, line: &str) -> Result<Vec<String>, OutOfMemory> {
    let mut words = Vec::new(alloc);
    if !line.is_empty() {
        for word in line.split(' ') {
            words
                .push(String::from_str(alloc, word)?)
                .map_err(AllocError::from)?;
        }
    }
    Ok(words)
}

fn course_of(alloc: Global, log: &[Happening]) -> Result<Vec<u8>, OutOfMemory> {
    let mut course = Vec::new(alloc);
    for happening in log {
        put_happening(happening, &mut course)?;
    }
    Ok(course)
}

fn put_happening(happening: &Happening, course: &mut Vec<u8>) -> Result<(), OutOfMemory> {
    match happening {
        Happening::Woke(_) => Ok(()),
        Happening::Configured(name, Some(_)) => put(b"reads ", name.as_slice(), course),
        Happening::Configured(name, None) => put(b"cannot read ", name.as_slice(), course),
        Happening::Rooted(folder) => put(b"uses ", folder.as_slice(), course),
        Happening::Listed(true) => put(b"lists it", b"", course),
        Happening::Listed(false) => put(b"cannot list it", b"", course),
        Happening::Listens(port, true) => put_port(b"listens on ", *port, course),
        Happening::Listens(port, false) => put_port(b"may not listen on ", *port, course),
        Happening::Waits(_) => put(b"waits", b"", course),
        Happening::Clock(_) => put(b"ticks", b"", course),
        Happening::Stopped => put(b"stops", b"", course),
        Happening::Printed(text) => put(b"prints ", text.as_slice(), course),
        _ => put(b"does more", b"", course),
    }
}

fn put_port(before: &[u8], port: u16, course: &mut Vec<u8>) -> Result<(), OutOfMemory> {
    let mut text = ArrayVec::new();
    put_u64(u64::from(port), &mut text);
    put(before, text.as_slice(), course)
}

/// A line of two parts.
fn put(before: &[u8], behind: &[u8], course: &mut Vec<u8>) -> Result<(), OutOfMemory> {
    course.extend_from_slice(before)?;
    course.extend_from_slice(behind)?;
    course.push(b'\n').map_err(AllocError::from)?;
    Ok(())
}
