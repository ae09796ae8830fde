// What comes to a world in memory: cues and pages over texts that a table has.
use pp_memworld::{Cue, Page, Script};
use pp_text::{Octets, OutOfMemory};
use std::alloc::{AllocError, Global};

/// A cue over texts that a table has.
#[derive(Clone, Copy)]
pub enum Hint<'a> {
    Tick(u64),
    Connect,
    Say(u64, &'a [u8]),
    HangUp(u64),
    Window(u64, u64),
    Reach(u64),
    Refuse(u64),
    Answer(u64, &'a [u8]),
    End(u64),
    Break(u64),
    Stop,
}

/// Host, path, tag and body of a page that answers by itself.
pub type Site<'a> = (&'a [u8], &'a [u8], &'a [u8], &'a [u8]);

pub fn script_of(
    alloc: Global,
    hints: &[Hint<'_>],
    pages: &[Site<'_>],
) -> Result<Script, OutOfMemory> {
    let cues = cues_of(alloc, hints)?;
    let site = site_of(alloc, pages)?;
    Ok(Script { cues, site })
}

fn cues_of(alloc: Global, hints: &[Hint<'_>]) -> Result<Vec<Cue>, OutOfMemory> {
    let mut cues = Vec::new(alloc);
    for hint in hints {
        let cue = cue_of(alloc, *hint)?;
        cues.push(cue).map_err(AllocError::from)?;
    }
    Ok(cues)
}

fn site_of(alloc: Global, pages: &[Site<'_>]) -> Result<Vec<Page>, OutOfMemory> {
    let mut site = Vec::new(alloc);
    for (host, path, tag, body) in pages {
        let page = Page {
            host: Octets::copy(alloc, host)?,
            path: Octets::copy(alloc, path)?,
            tag: Octets::copy(alloc, tag)?,
            body: Octets::copy(alloc, body)?,
        };
        site.push(page).map_err(AllocError::from)?;
    }
    Ok(site)
}

fn cue_of(alloc: Global, hint: Hint<'_>) -> Result<Cue, OutOfMemory> {
    Ok(match hint {
        Hint::Tick(seconds) => Cue::Tick(seconds),
        Hint::Connect => Cue::Connect,
        Hint::Say(id, bytes) => Cue::Say(id, Octets::copy(alloc, bytes)?),
        Hint::HangUp(id) => Cue::HangUp(id),
        Hint::Window(id, len) => Cue::Window(id, len),
        Hint::Reach(id) => Cue::Reach(id),
        Hint::Refuse(id) => Cue::Refuse(id),
        Hint::Answer(id, bytes) => Cue::Answer(id, Octets::copy(alloc, bytes)?),
        Hint::End(id) => Cue::End(id),
        Hint::Break(id) => Cue::Break(id),
        Hint::Stop => Cue::Stop,
    })
}
