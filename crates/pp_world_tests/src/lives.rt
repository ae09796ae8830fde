// Lives of a folder in memory, call by call, and what crashes leave of them.
use crate::calls::{Call, Gives, first_unlike, holds, is_given, name_of};
use crate::outcome::Unlike;
use crate::telling::tells;
use pp_memworld::{MemWorld, Script, put_file};
use pp_text::{Octets, OutOfMemory};
use pp_world::Image;
use std::alloc::Global;

/// A life over these files, and what is to come of it.
#[derive(Clone, Copy)]
pub struct Life<'a> {
    pub name: &'a str,
    /// A letter and the bytes of the file of that name.
    pub files: &'a [(u8, &'a [u8])],
    /// The numbers of the calls that fail.
    pub failing: &'a [u64],
    pub calls: &'a [(Call<'a>, Gives<'a>)],
    /// The names of all that is told, if that is asked.
    pub told: Option<&'a [&'a str]>,
    /// A crash or two, one after the other, each after so many happenings and by a choice; and what they leave of the file `a`.
    pub left: &'a [(&'a [(usize, u64)], &'a [u8])],
}

/// The first of these lives that goes otherwise than it is written down.
pub fn unlike<'a>(alloc: Global, lives: &[Life<'a>]) -> Option<Unlike<'a>> {
    for life in lives {
        if let Some((part, place)) = part_unlike(alloc, life) {
            return Some(Unlike {
                course: life.name,
                part,
                place,
            });
        }
    }
    None
}

// Only the one function that makes a world lets go of it, and at one place: that is dear to prove.
fn part_unlike(alloc: Global, life: &Life<'_>) -> Option<(&'static str, usize)> {
    match begin(alloc, life) {
        Ok(mut world) => part_of(&mut world, alloc, life),
        Err(OutOfMemory) => Some(("memory", 0)),
    }
}

fn part_of(world: &mut MemWorld, alloc: Global, life: &Life<'_>) -> Option<(&'static str, usize)> {
    if let Some(place) = first_unlike(world, alloc, life.calls) {
        return Some(("call", place));
    }
    if !is_told(world, life.told) {
        return Some(("told", 0));
    }
    match first_not_left(world, alloc, life.left) {
        Some(place) => Some(("crash", place)),
        None => None,
    }
}

fn is_told(world: &MemWorld, told: Option<&[&str]>) -> bool {
    match told {
        Some(names) => tells(world, names),
        None => true,
    }
}

/// A life whose second call that can fail does so.
const FAILING: Life<'static> = Life {
    name: "one call fails",
    files: &[(b'a', b"hello")],
    failing: &[2],
    calls: &[
        (Call::Root(b"folder"), Gives::Done),
        (Call::Draft(b"new"), Gives::Done),
    ],
    told: None,
    left: &[],
};

/// What stands after it as before.
const STANDING: &[(Call<'static>, Gives<'static>)] = &[
    (Call::Whole(b'a'), Gives::Bytes(b"hello")),
    (Call::Names, Gives::Names(b"a")),
];

/// The first of these calls that does not fail as the second one, or does something, or is told otherwise than so.
pub fn not_failing(alloc: Global, failing: &[(Call<'static>, &[&str])]) -> Option<Unlike<'static>> {
    for (place, (call, told)) in failing.iter().enumerate() {
        if !is_failing(alloc, *call, told) {
            return Some(Unlike {
                course: FAILING.name,
                part: "call",
                place,
            });
        }
    }
    None
}

fn is_failing(alloc: Global, call: Call<'_>, told: &[&str]) -> bool {
    match begin(alloc, &FAILING) {
        Ok(mut world) => fails(&mut world, alloc, call) && tells(&world, told),
        Err(OutOfMemory) => false,
    }
}

fn fails(world: &mut MemWorld, alloc: Global, call: Call<'_>) -> bool {
    first_unlike(world, alloc, FAILING.calls).is_none()
        && is_given(world, alloc, call, Gives::Fault)
        && first_unlike(world, alloc, STANDING).is_none()
}

pub fn no_script(alloc: Global) -> Script {
    Script {
        cues: Vec::new(alloc),
        site: Vec::new(alloc),
    }
}

fn begin(alloc: Global, life: &Life<'_>) -> Result<MemWorld, OutOfMemory> {
    let mut image = Image::new(alloc);
    for file in life.files {
        let bytes = Octets::copy(alloc, file.1)?;
        put_file(&mut image, name_of(file.0), bytes)?;
    }
    let failing = Vec::from_slice(alloc, life.failing)?;
    MemWorld::new(alloc, no_script(alloc), image, failing)
}

fn first_not_left(
    world: &MemWorld,
    alloc: Global,
    left: &[(&[(usize, u64)], &[u8])],
) -> Option<usize> {
    for (place, (crashes, bytes)) in left.iter().enumerate() {
        if !is_left(world, alloc, crashes, bytes) {
            return Some(place);
        }
    }
    None
}

fn is_left(world: &MemWorld, alloc: Global, crashes: &[(usize, u64)], bytes: &[u8]) -> bool {
    match *crashes {
        [crash] => leaves(world, alloc, crash, bytes),
        [first, second] => leaves_behind(world, alloc, first, second, bytes),
        _ => false,
    }
}

/// Whether the file `a` has these bytes behind a crash.
fn leaves(world: &MemWorld, alloc: Global, crash: (usize, u64), bytes: &[u8]) -> bool {
    match crashed(world, alloc, crash) {
        Ok(Some(mut next)) => holds(&mut next, b'a', Gives::Bytes(bytes)),
        Ok(None) | Err(OutOfMemory) => false,
    }
}

fn leaves_behind(
    world: &MemWorld,
    alloc: Global,
    first: (usize, u64),
    second: (usize, u64),
    bytes: &[u8],
) -> bool {
    match crashed(world, alloc, first) {
        Ok(Some(next)) => leaves(&next, alloc, second, bytes),
        Ok(None) | Err(OutOfMemory) => false,
    }
}

fn crashed(
    world: &MemWorld,
    alloc: Global,
    crash: (usize, u64),
) -> Result<Option<MemWorld>, OutOfMemory> {
    let (at, choice) = crash;
    world.crash(alloc, at, choice, no_script(alloc), Vec::new(alloc))
}
