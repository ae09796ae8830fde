// A table of calls on the cache, each with what it answers.
use crate::cache::Cache;
use crate::saying::told;
use pp_objects::Added;
use pp_text::OutOfMemory;
use std::alloc::Global;

/// A call, and what it answers. Instances are named by the order in which they were settled.
pub enum Step<'a> {
    /// A row of this key, with this tag and so many bytes.
    Settle(&'a [u8], &'a [u8], u64),
    Retire(&'a [u8]),
    Mark(usize),
    /// By a response with `cache-control: max-age=5`, that came in this second.
    Refresh(usize, u64),
    /// The kept fields, and the second of the response.
    Shown(usize, &'a [(&'a [u8], &'a [u8])], u64),
    Follow(usize),
    Leave(usize),
    Forget(usize),
    /// Bytes from this offset on: how many join, and how many are passed over.
    Add(usize, u64, &'a [u8], u64, u64),
    /// The same of `a`, so many times, 4,096 times at most.
    AddMany(usize, u64, usize, u64, u64),
    /// A byte at this offset, for which no chunk is free.
    Stop(usize, u64),
    /// The first byte of so many chunks.
    Fill(usize, u32),
    Drop(usize, u32),
    Touch(usize, u32),
    /// So many chunks are used so often, the first one first, and then all of them, the last one first.
    TouchUpAndDown(usize, u32, u32),
    Piece(usize, u64, &'a [u8]),
    Hole(usize, u64, (u64, u64)),
    /// Whether the instance is gone.
    IsGone(usize, bool),
    Current(&'a [u8], Option<usize>),
    Rows(u32),
    Used(u32),
    /// The least recently used chunk.
    Oldest(usize, u32),
    /// The idle row, where these are busy.
    Idle(&'a [usize], Option<usize>),
    /// The victim, where this one is pinned and so many chunks may be used.
    Evict(usize, u32, u32, Option<(usize, u32)>),
    /// So many victims, one after the other, where this one is pinned and so many chunks may be used.
    Victims(usize, u32, u32, u32),
}

/// Calls over a pool of so many chunks, 512 to 65,536.
pub struct Course<'a> {
    pub name: &'a str,
    pub chunks: u32,
    pub steps: &'a [Step<'a>],
}

/// Where these courses go otherwise than wanted: nothing is said where none does.
pub fn unlike(alloc: Global, courses: &[Course<'_>]) -> Result<String, OutOfMemory> {
    for course in courses {
        let place = first_unlike(alloc, course)?;
        if place.is_some() {
            return Ok(told(alloc, course.name, place)?);
        }
    }
    Ok(String::new(alloc))
}

fn first_unlike(alloc: Global, course: &Course<'_>) -> Result<Option<usize>, OutOfMemory> {
    let chunks = course.chunks;
    if chunks < 512 || chunks > 65536 {
        return Ok(Some(0));
    }
    let mut cache = Cache::new(alloc, chunks)?;
    for (place, step) in course.steps.iter().enumerate() {
        if !is_met(&mut cache, step) {
            return Ok(Some(place));
        }
    }
    Ok(None)
}

/// Whether the call is made, and answers this.
fn is_met(cache: &mut Cache, step: &Step<'_>) -> bool {
    match step {
        Step::Settle(key, tag, length) => cache.settle(key, tag, *length),
        Step::Retire(key) => cache.retire(key),
        Step::Mark(i) => cache.mark(*i),
        Step::Refresh(i, second) => cache.refresh(*i, *second),
        Step::Shown(i, lines, second) => cache.shows(*i, lines, *second),
        Step::Follow(i) => cache.follow(*i),
        Step::Leave(i) => cache.leave(*i),
        Step::Forget(i) => cache.forget(*i),
        Step::Add(i, at, bytes, joined, ignored) => {
            cache.add(*i, *at, bytes) == joining(*joined, *ignored)
        }
        Step::AddMany(i, at, count, joined, ignored) => {
            cache.add(*i, *at, many(*count)) == joining(*joined, *ignored)
        }
        Step::Stop(i, at) => cache.add(*i, *at, b"a") == STOPPED,
        Step::Fill(i, chunks) => fill(cache, *i, *chunks),
        Step::Drop(i, index) => cache.drop_chunk(*i, *index),
        Step::Touch(i, index) => cache.touch(*i, *index),
        Step::TouchUpAndDown(i, chunks, times) => touch_up_and_down(cache, *i, *chunks, *times),
        Step::Piece(i, at, bytes) => cache.piece(*i, *at) == Some(*bytes),
        Step::Hole(i, at, hole) => cache.next_hole(*i, *at) == Some(*hole),
        Step::IsGone(i, is_gone) => cache.is_gone(*i) == *is_gone,
        Step::Current(key, wanted) => cache.is_current(key, *wanted),
        Step::Rows(n) => cache.rows() == *n,
        Step::Used(n) => cache.used() == *n,
        Step::Oldest(i, index) => cache.is_oldest(*i, *index),
        Step::Idle(busy, wanted) => cache.is_idle(busy, *wanted),
        Step::Evict(i, index, floor, wanted) => cache.is_victim((*i, *index), *floor, *wanted),
        Step::Victims(i, index, floor, wanted) => {
            cache.victims((*i, *index), *floor) == Some(*wanted)
        }
    }
}

/// Adds the first byte of so many chunks.
fn fill(cache: &mut Cache, i: usize, chunks: u32) -> bool {
    for chunk in 0..chunks {
        if cache.add(i, u64::from(chunk) * 4096, b"a").is_none() {
            return false;
        }
    }
    true
}

/// Uses so many chunks so often: the first one first, and then all of them, the last one first.
fn touch_up_and_down(cache: &mut Cache, i: usize, chunks: u32, times: u32) -> bool {
    for _ in 0..times {
        if !touch_up(cache, i, chunks) || !touch_down(cache, i, chunks) {
            return false;
        }
    }
    true
}

fn touch_up(cache: &mut Cache, i: usize, chunks: u32) -> bool {
    for index in 0..chunks {
        if !cache.touch(i, index) {
            return false;
        }
    }
    true
}

fn touch_down(cache: &mut Cache, i: usize, chunks: u32) -> bool {
    for index in 0..chunks {
        if !cache.touch(i, chunks - 1 - index) {
            return false;
        }
    }
    true
}

/// No chunk is free.
const STOPPED: Option<Added> = Some(Added {
    joined: 0,
    ignored: 0,
    need_chunk: true,
});

fn joining(joined: u64, ignored: u64) -> Option<Added> {
    Some(Added {
        joined,
        ignored,
        need_chunk: false,
    })
}

fn many(count: usize) -> &'static [u8] {
    &MANY[..count.min(4096)]
}

static MANY: [u8; 4096] = [b'a'; 4096];
