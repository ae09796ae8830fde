// A folder with files, a run of the program over it, and what that did.
ghost use Rattle.std.specs.Prelude.{IfOk};
ghost use Rattle.pp_memworld.specs.Slots.{AreListed};

use pp_memworld::{Script, put_file};
use pp_play::{Act, PACES, Pace, Played, T, boxed, play_over};
use pp_text::{Octets, OutOfMemory};
use pp_world::{Decision, Happening, Image, Name, Remark};
use std::alloc::{AllocError, Global};

/// A folder that the program finds.
pub(crate) struct Folder {
    pub(crate) name: &'static str,
    pub(crate) files: &'static [File],
}

pub(crate) struct File {
    pub(crate) name: Name,
    pub(crate) bytes: Bytes,
}

pub(crate) enum Bytes {
    Text(&'static [u8]),
    /// A head, zeros up to the gates, the open gate of one chunk, zeros up to the body, and this body.
    Entry(&'static [u8], &'static [u8]),
}

/// What a client asks for, what is decided for it, what origins are asked, and what it is said.
pub(crate) struct Visit {
    pub(crate) request: &'static [u8],
    pub(crate) decision: Decision,
    pub(crate) asked: &'static [u8],
    pub(crate) said: &'static [u8],
}

/// What an origin answers where it is asked: none of it may be stored.
pub(crate) const ANSWER: &[u8] =
    b"HTTP/1.1 200 OK\r\nCache-Control: no-store\r\nContent-Length: 5\r\n\r\nother";

/// Where a request over one of these folders comes to anything else, or a file is not left as it was, at either pace: nothing
/// is said where there is none. Each request has a life of its own.
pub(crate) fn unlike(
    alloc: Global,
    folders: &[Folder],
    visits: &[Visit],
) -> Result<String, OutOfMemory> {
    for pace in PACES {
        for folder in folders {
            for (place, visit) in visits.iter().enumerate() {
                let played = visited(alloc, pace, folder.files, visit.request)?;
                let part = first_unlike(alloc, &played, folder.files, visit)?;
                if !part.is_empty() {
                    return Ok(format!(in alloc;
                        "{}, {pace:?}: {part} of request {place}",
                        folder.name
                    )?);
                }
            }
        }
    }
    Ok(String::new(alloc))
}

/// A life over these files, in which a client says this request.
fn visited(
    alloc: Global,
    pace: Pace,
    files: &[File],
    request: &[u8],
) -> Result<Played, OutOfMemory> {
    let image = image_of(alloc, files)?;
    let acts = [
        Act::Tick(T),
        Act::Connect,
        Act::Say(1, request),
        Act::Reach(2),
        Act::Answer(2, ANSWER),
    ];
    play_over(alloc, &[], pace, image, &acts, &[])
}

/// A folder with these files.
pub(crate) fn image_of(alloc: Global, files: &[File]) -> Result<Image, OutOfMemory>
    ensures listed { IfOk result AreListed }
{
    let mut image = Image::new(alloc);
    for file in files {
        let bytes = Octets::copy(alloc, &bytes_of(alloc, &file.bytes)?)?;
        put_file(&mut image, file.name, bytes)?;
    }
    Ok(image)
}

fn bytes_of(alloc: Global, bytes: &Bytes) -> Result<Vec<u8>, OutOfMemory> {
    match bytes {
        Bytes::Text(text) => Ok(Vec::from_slice(alloc, text)?),
        Bytes::Entry(head, body) => {
            let mut file = Vec::from_slice(alloc, head)?;
            file.resize(8_192, 0)?;
            file.push(1).map_err(AllocError::from)?;
            file.resize(12_288, 0)?;
            file.extend_from_slice(body)?;
            Ok(file)
        }
    }
}

/// What went otherwise, or nothing.
fn first_unlike(
    alloc: Global,
    played: &Played,
    files: &[File],
    visit: &Visit,
) -> Result<&'static str, OutOfMemory> {
    let log = played.log();
    if decision_in(log) != Some(visit.decision) {
        return Ok("the decision");
    }
    if asked_in(alloc, log)?.as_slice() != visit.asked {
        return Ok("the ask");
    }
    if said_in(alloc, log)?.as_slice() != visit.said {
        return Ok("the reply");
    }
    for choice in 0..2 {
        if !are_left(alloc, played, choice, files)? {
            return Ok("what is left");
        }
    }
    Ok("")
}

/// What was decided for the first request.
fn decision_in(log: &[Happening]) -> Option<Decision> {
    for happening in log {
        if let Happening::Noted(Remark::Taken(1, 0, decision)) = happening {
            return Some(*decision);
        }
    }
    None
}

/// All that origins were asked.
pub(crate) fn asked_in(alloc: Global, log: &[Happening]) -> Result<Vec<u8>, OutOfMemory> {
    let mut text = Vec::new(alloc);
    for happening in log {
        if let Happening::Asked(_, bytes) = happening {
            text.extend_from_slice(bytes.as_slice())?;
        }
    }
    Ok(text)
}

/// All that clients were said.
fn said_in(alloc: Global, log: &[Happening]) -> Result<Vec<u8>, OutOfMemory> {
    let mut text = Vec::new(alloc);
    for happening in log {
        if let Happening::Said(_, _, bytes) = happening {
            text.extend_from_slice(bytes.as_slice())?;
        }
    }
    Ok(text)
}

/// Whether a crash at the end leaves just these files by this choice.
fn are_left(
    alloc: Global,
    played: &Played,
    choice: u64,
    files: &[File],
) -> Result<bool, OutOfMemory> {
    let at = played.log().len();
    let script = Script {
        cues: Vec::new(alloc),
        site: Vec::new(alloc),
    };
    let crashed = played
        .world()
        .crash(alloc, at, choice, script, Vec::new(alloc))?;
    let Some(next) = crashed else {
        return Ok(false);
    };
    let next = boxed(alloc, next)?;
    match next.log().unwrap_or(&[]).last() {
        Some(Happening::Woke(image)) => has_just(alloc, image, files),
        _ => Ok(false),
    }
}

/// Whether these files are there, which are written down in the order of their names, and no others.
pub(crate) fn has_just(alloc: Global, image: &Image, files: &[File]) -> Result<bool, OutOfMemory> {
    let mut before: Option<&Name> = None;
    for file in files {
        let bytes = bytes_of(alloc, &file.bytes)?;
        let is_next = image.next_name(before) == Some(&file.name);
        let is_same = match image.get(&file.name) {
            Some(found) => found.as_slice() == bytes.as_slice(),
            None => false,
        };
        if !is_next || !is_same {
            return Ok(false);
        }
        before = Some(&file.name);
    }
    Ok(image.next_name(before).is_none())
}
