// Acts: calls on a life and their answers, as a course writes them down.
use crate::entries::Entry;
use crate::given::is_as_given;
use crate::life::Life;
use crate::steps::{Step, are_just};
use pp_fresh::Times;
use pp_store::{KeepFault, LoadFault};
use pp_world::{DiskFault, Happening};
use std::alloc::Global;

/// A call and its answer, or what is to be so. No answer stands for a call that may not be made.
#[derive(Clone, Copy)]
pub enum Act {
    /// It is kept with so many first bytes of its body.
    Keep(&'static Entry, usize, Option<Result<(), KeepFault>>),
    /// Its bytes from the extent up to this offset are kept.
    Extend(&'static Entry, usize, Option<Result<u64, DiskFault>>),
    /// It is kept, where it is not, and what is missing of it chunk by chunk: whether it is then kept whole.
    Fill(&'static Entry, bool),
    /// A chunk of it is loaded.
    Load(&'static Entry, u32, Option<Result<usize, LoadFault>>),
    Withdraw(&'static Entry, Option<Result<(), DiskFault>>),
    /// It is told of as it was given, but for these times; so many bytes of it are kept, and loaded as they were written.
    Has(&'static Entry, u64, &'static Times),
    /// It is not kept, and whether its name is closed.
    Lacks(&'static Entry, bool),
    /// So many entries are kept.
    Entries(u32),
    /// So much happened in all.
    Happened(usize),
    /// Once the folder was listed, just these operations were done.
    Did(&'static Entry, &'static [Step]),
}

/// Whether an act goes as it is written down.
pub fn is_met(life: &mut Life, alloc: Global, body: &[u8], act: &Act) -> bool {
    match *act {
        Act::Keep(entry, count, wanted) => {
            let front = entry.part(body, 0, count);
            life.keep(alloc, entry.key, entry.length, front) == wanted
        }
        Act::Extend(entry, to, wanted) => {
            let from = life.extent(entry.key).unwrap_or(0);
            life.extend(entry.key, entry.part(body, from as usize, to)) == wanted
        }
        Act::Fill(entry, is_kept) => fill(life, alloc, entry, body) == is_kept,
        Act::Load(entry, index, wanted) => life.load(entry.key, index, &mut [0; 4096]) == wanted,
        Act::Withdraw(entry, wanted) => life.withdraw(entry.key) == wanted,
        Act::Has(entry, extent, times) => {
            has(life, entry, extent, times) && loads(life, entry, body, extent)
        }
        Act::Lacks(entry, is_closed) => {
            life.extent(entry.key).is_none() && life.store().is_closed(&entry.name) == is_closed
        }
        Act::Entries(count) => life.store().entries() == count,
        Act::Happened(count) => life.log().len() == count,
        Act::Did(entry, steps) => did_just(life, entry, body, steps),
    }
}

/// Keeps an entry, where it is not kept, and the rest of its body, one chunk after another. Whether it is
/// then kept whole.
pub fn fill(life: &mut Life, alloc: Global, entry: &Entry, body: &[u8]) -> bool {
    if life.extent(entry.key).is_none() {
        life.keep(alloc, entry.key, entry.length, &[]);
    }
    let kept = life.extent(entry.key).unwrap_or(entry.length);
    for chunk in entry
        .part(body, kept as usize, entry.length as usize)
        .chunks(4096)
    {
        match life.extend(entry.key, chunk) {
            Some(Ok(_)) => {}
            _ => return false,
        }
    }
    life.extent(entry.key) == Some(entry.length)
}

/// Whether so much of an entry is kept, told of as it was given but for these times.
pub fn has(life: &Life, entry: &Entry, extent: u64, times: &Times) -> bool {
    match life.store().kept(entry.key) {
        Some(row) => {
            row.extent == extent
                && is_as_given(&row, entry.key, entry.length, times)
                && !life.store().is_closed(&entry.name)
        }
        None => false,
    }
}

/// The chunks of the longest body that is kept.
const MOST_CHUNKS: u32 = 16_384;

/// Whether so many bytes of an entry are loaded as they were written.
pub fn loads(life: &mut Life, entry: &Entry, body: &[u8], extent: u64) -> bool {
    let kept = entry.part(body, 0, extent as usize);
    let mut out = [0; 4096];
    for (index, chunk) in (0..MOST_CHUNKS).zip(kept.chunks(4096)) {
        match life.load(entry.key, index, &mut out) {
            Some(Ok(count)) if out.get(..count) == Some(chunk) => {}
            _ => return false,
        }
    }
    kept.len() as u64 == extent
}

/// Whether the folder was listed, and just these operations on an entry were done since.
pub fn did_just(life: &Life, entry: &Entry, body: &[u8], steps: &[Step]) -> bool {
    match life.own_log() {
        [
            Happening::Woke(_),
            Happening::Rooted(_),
            Happening::Listed(true),
            rest @ ..,
        ] => are_just(rest, entry, body, steps),
        _ => false,
    }
}
