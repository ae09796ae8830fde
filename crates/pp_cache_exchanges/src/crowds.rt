// Followers of a body, each stopped before a chunk of it, and the chunks that leave memory where more comes than fits.
//
// Byte by byte come all requests, the heads, and of each chunk of both pages the first byte and the last; of the last chunk of page
// /b, with whose first byte the memory is as full as it gets, the first 256. What is between comes in one piece at either pace: a
// byte that comes and is said is six happenings, of some 5 KB each in the log of the world, so that all bytes alone would take
// some 60 GB, in the smallest memory that is.
use crate::folders::asked_in;
use crate::lengths::LONGEST;
use pp_play::{
    ASK, ASK_B, Act, Fit, GET, GET_B, PACES, Pace, Part, Played, T, fit_of, joined, play_with,
};
use pp_text::OutOfMemory;
use pp_world::{Happening, Remark};
use std::alloc::{AllocError, Global};

/// A client is said the front of page /a, whose chunks so are used in their order. Then others ask for a chunk of it each, and
/// take no byte. Then a client is said the front of page /b, and then the others take all. Last, the first and the last of
/// them ask once more: for what it was said, and for the chunk that left memory first.
pub(crate) struct Crowd {
    pub(crate) name: &'static str,
    pub(crate) words: &'static [&'static str],
    /// So many chunks of page /a come.
    pub(crate) chunks: usize,
    /// So many clients ask for a chunk of it each: for the first, and each for one that is so many farther on.
    pub(crate) followers: u64,
    pub(crate) apart: u64,
    /// So many chunks of page /b come.
    pub(crate) more: usize,
    /// These chunks of page /a leave memory, one run behind the other, and nothing else does.
    pub(crate) left: &'static [Run],
}

/// So many chunks, from this one on and so far apart.
pub(crate) struct Run {
    pub(crate) first: u64,
    pub(crate) apart: u64,
    pub(crate) count: u64,
}

const CHUNK_LEN: usize = 4_096;

/// Where one of these goes otherwise, at either pace: nothing is said where none does.
pub(crate) fn unlike(alloc: Global, crowds: &[Crowd]) -> Result<String, OutOfMemory> {
    for pace in PACES {
        for crowd in crowds {
            let played = played(alloc, pace, crowd)?;
            let part = first_unlike(alloc, crowd, &played)?;
            if !part.is_empty() {
                let left = evicted(alloc, played.log())?;
                return Ok(format!(in alloc;
                    "{}, {pace:?}: {part}, {:?} left",
                    crowd.name,
                    left.as_slice()
                )?);
            }
        }
    }
    Ok(String::new(alloc))
}

/// The clients of page /a have the numbers from this one on.
const FIRST: u64 = 3;

/// So many bytes of the last chunk of page /b come alone, where each byte does.
const ALONE: usize = 256;

fn played(alloc: Global, pace: Pace, crowd: &Crowd) -> Result<Played, OutOfMemory> {
    let requests = requests_of(alloc, crowd)?;
    let anew = request_of(alloc, first_left(crowd))?;
    let beyond = FIRST.saturating_add(crowd.followers);
    let origin = beyond.saturating_add(1);
    let mut acts = Vec::new(alloc);
    acts.extend_from_slice(&[
        Act::Tick(T),
        Act::Connect,
        Act::Say(1, GET),
        Act::Reach(2),
        Act::Answer(2, LONGEST),
        Act::FillChunks(2, b'a', crowd.chunks),
    ])?;
    for request in requests.iter() {
        acts.extend_from_slice(&[
            Act::Connect,
            Act::Window(0, 0),
            Act::Say(0, request.as_bytes()),
        ])?;
    }
    acts.extend_from_slice(&[
        Act::Connect,
        Act::Say(0, GET_B),
        Act::Reach(origin),
        Act::Answer(origin, LONGEST),
        Act::FillChunks(origin, b'b', crowd.more.saturating_sub(1)),
        Act::Fill(origin, b'b', ALONE),
        Act::FillWhole(origin, b'b', CHUNK_LEN - ALONE - 1),
        Act::Fill(origin, b'b', 1),
    ])?;
    for follower in FIRST..beyond {
        acts.push(Act::Window(follower, u64::MAX))
            .map_err(AllocError::from)?;
    }
    if let Some(first) = requests.first() {
        acts.push(Act::Say(FIRST, first.as_bytes()))
            .map_err(AllocError::from)?;
    }
    acts.extend_from_slice(&[
        Act::Say(beyond.saturating_sub(1), anew.as_bytes()),
        Act::Reach(beyond.saturating_add(2)),
    ])?;
    play_with(alloc, crowd.words, pace, acts.as_slice(), &[])
}

/// The chunk that this follower asks for.
fn chunk_of(crowd: &Crowd, follower: u64) -> u64 {
    follower.saturating_mul(crowd.apart)
}

/// The chunk that leaves memory first.
fn first_left(crowd: &Crowd) -> u64 {
    match crowd.left.first() {
        Some(run) => run.first,
        None => 0,
    }
}

fn requests_of(alloc: Global, crowd: &Crowd) -> Result<Vec<String>, OutOfMemory> {
    let mut requests = Vec::new(alloc);
    for follower in 0..crowd.followers {
        let request = request_of(alloc, chunk_of(crowd, follower))?;
        requests.push(request).map_err(AllocError::from)?;
    }
    Ok(requests)
}

/// The offsets of the first and the last byte of a chunk.
fn ends_of(chunk: u64) -> (u64, u64) {
    let first = chunk.saturating_mul(CHUNK_LEN as u64);
    (first, first.saturating_add(4_095))
}

fn request_of(alloc: Global, chunk: u64) -> Result<String, OutOfMemory> {
    let (first, last) = ends_of(chunk);
    Ok(format!(in alloc;
        "GET http://h/a HTTP/1.1\r\nHost: h\r\nRange: bytes={first}-{last}\r\n\r\n"
    )?)
}

fn reply_head(alloc: Global, chunk: u64) -> Result<String, OutOfMemory> {
    let (first, last) = ends_of(chunk);
    Ok(format!(in alloc;
        "HTTP/1.1 206 Partial Content\r\netag: \"x\"\r\ndate: Sun, 06 Nov 1994 08:49:37 GMT\r\ncache-control: max-age=60\r\nage: 0\r\nvia: 1.1 polipo\r\ncontent-range: bytes {first}-{last}/1073741824\r\ncontent-length: 4096\r\nconnection: keep-alive\r\n\r\n"
    )?)
}

/// What went otherwise, or nothing.
fn first_unlike(
    alloc: Global,
    crowd: &Crowd,
    played: &Played,
) -> Result<&'static str, OutOfMemory> {
    if evicted(alloc, played.log())?.as_slice() != left_of(alloc, crowd)?.as_slice() {
        return Ok("what leaves memory");
    }
    if asked_in(alloc, played.log())?.as_slice() != asks_of(alloc, crowd)?.as_slice() {
        return Ok("what is asked");
    }
    for follower in 0..crowd.followers {
        if !is_replied(alloc, crowd, played, follower)? {
            return Ok("a reply");
        }
    }
    Ok("")
}

/// The chunks that are to leave memory.
fn left_of(alloc: Global, crowd: &Crowd) -> Result<Vec<u64>, OutOfMemory> {
    let mut chunks = Vec::new(alloc);
    for run in crowd.left {
        for place in 0..run.count {
            let chunk = run.first.saturating_add(place.saturating_mul(run.apart));
            chunks.push(chunk).map_err(AllocError::from)?;
        }
    }
    Ok(chunks)
}

/// The chunks of page /a that left memory: one of another page counts as none that there is.
fn evicted(alloc: Global, log: &[Happening]) -> Result<Vec<u64>, OutOfMemory> {
    let mut chunks = Vec::new(alloc);
    for happening in log {
        if let Happening::Noted(Remark::Evicted(key, _, _, chunk)) = happening {
            let is_of_a = key.as_slice() == b"http://h/a".as_slice();
            chunks
                .push(if is_of_a { *chunk } else { u64::MAX })
                .map_err(AllocError::from)?;
        }
    }
    Ok(chunks)
}

/// The asks that are to be: for each page, and for the chunk that left memory first.
fn asks_of(alloc: Global, crowd: &Crowd) -> Result<Vec<u8>, OutOfMemory> {
    let (first, last) = ends_of(first_left(crowd));
    let anew = if crowd.left.is_empty() {
        String::new(alloc)
    } else {
        format!(in alloc;
            "GET /a HTTP/1.1\r\nhost: h\r\nrange: bytes={first}-{last}\r\nif-range: \"x\"\r\nvia: 1.1 polipo\r\n\r\n"
        )?
    };
    joined(alloc, &[ASK, ASK_B, anew.as_bytes()])
}

/// Whether this follower is said its chunk: the first twice. What the last is said behind it, where the chunk that it asks for
/// left memory, is not for here.
fn is_replied(
    alloc: Global,
    crowd: &Crowd,
    played: &Played,
    follower: u64,
) -> Result<bool, OutOfMemory> {
    let said = played.said(FIRST.saturating_add(follower))?;
    let head = reply_head(alloc, chunk_of(crowd, follower))?;
    let head = Part::Text(head.as_bytes());
    let body = Part::Fill(b'a', CHUNK_LEN);
    let fit = fit_of(said.as_slice(), &[head, body]);
    Ok(if follower == 0 {
        fit_of(said.as_slice(), &[head, body, head, body]) == Fit::Whole
    } else if follower.saturating_add(1) < crowd.followers {
        fit == Fit::Whole
    } else {
        fit != Fit::Front
    })
}
