// Clients and origins that do anything.
use crate::dice::Dice;
use crate::texts::{OTHER_REQUESTS, PLAIN_REQUESTS, RESOURCES, RESPONSES, Resource};
use pp_memworld::{Cue, Page, Script};
use pp_text::{Octets, OutOfMemory};
use std::alloc::{AllocError, Global};

/// Sun, 06 Nov 1994 08:49:37 GMT
pub(crate) const BEGIN: u64 = 784_111_777;

/// Cues are for connections of these numbers, from 1: as many as come in most scripts.
pub(crate) const NUMBERS: u64 = 16;

/// More than any script says.
pub(crate) const ALL: u64 = 1_000_000;

/// So many equal bytes follow each other in a page.
const RUN: usize = 128;

/// A script of so many steps, whose clock begins some time behind `BEGIN`.
pub(crate) fn script(
    alloc: Global,
    dice: &mut Dice,
    life: u64,
    steps: u64,
) -> Result<Script, OutOfMemory> {
    let mut cues = Vec::new(alloc);
    let mut now = BEGIN.saturating_add(life.saturating_mul(1_000));
    put(Cue::Tick(now), &mut cues)?;
    for _ in 0..steps {
        put_step(alloc, dice, &mut now, &mut cues)?;
    }
    // What was held back may go on, so that replies end.
    for number in 1..=NUMBERS {
        put(Cue::Window(number, ALL), &mut cues)?;
    }
    put(Cue::Tick(now.saturating_add(1)), &mut cues)?;
    Ok(Script {
        cues,
        site: site(alloc)?,
    })
}

/// Adds what a step brings.
fn put_step(
    alloc: Global,
    dice: &mut Dice,
    now: &mut u64,
    cues: &mut Vec<Cue>,
) -> Result<(), OutOfMemory> {
    let number = 1_u64.saturating_add(dice.below(NUMBERS));
    match dice.below(24) {
        0..=4 => {
            put(Cue::Connect, cues)?;
            put_pieces(alloc, dice, Teller::Client(0), PLAIN_REQUESTS, cues)
        }
        5 => {
            put(Cue::Connect, cues)?;
            put_pieces(alloc, dice, Teller::Client(0), OTHER_REQUESTS, cues)
        }
        6..=7 => put_pieces(alloc, dice, Teller::Client(0), PLAIN_REQUESTS, cues),
        8 => put_pieces(alloc, dice, Teller::Client(number), PLAIN_REQUESTS, cues),
        9 => put_pieces(alloc, dice, Teller::Client(number), OTHER_REQUESTS, cues),
        10 => put(Cue::HangUp(number), cues),
        11 => {
            let room = dice.below(200);
            put(Cue::Window(number, room), cues)
        }
        12 => put(Cue::Window(number, ALL), cues),
        13..=15 => put_reached(cues),
        16..=18 => put_pieces(alloc, dice, Teller::Origin(number), RESPONSES, cues),
        19 => put(Cue::Refuse(number), cues),
        20 => put(Cue::End(number), cues),
        21 => put(Cue::Break(number), cues),
        _ => {
            *now = now.saturating_add(dice.below(70));
            put(Cue::Tick(*now), cues)
        }
    }
}

/// All that are dialled are reached.
pub(crate) fn put_reached(cues: &mut Vec<Cue>) -> Result<(), OutOfMemory> {
    for number in 1..=NUMBERS {
        put(Cue::Reach(number), cues)?;
    }
    Ok(())
}

/// Who says a text. Client 0 is the one that connected last.
#[derive(Clone, Copy)]
enum Teller {
    Client(u64),
    Origin(u64),
}

/// Adds one of these texts, whole, or cut at one to four places, or byte by byte.
fn put_pieces(
    alloc: Global,
    dice: &mut Dice,
    teller: Teller,
    texts: &[&[u8]],
    cues: &mut Vec<Cue>,
) -> Result<(), OutOfMemory> {
    let Some(text) = dice.one_of(texts) else {
        return Ok(());
    };
    let is_bytewise = dice.is_once_in(12);
    let is_whole = dice.is_once_in(2);
    let mut rest: &[u8] = *text;
    for _ in 0..text.len() {
        if rest.is_empty() {
            break;
        }
        let len = if is_bytewise {
            1
        } else if is_whole {
            rest.len()
        } else {
            1_usize.saturating_add(dice.below(rest.len() as u64) as usize)
        };
        let (piece, behind) = rest.split_at(len.min(rest.len()));
        put(told(alloc, teller, piece)?, cues)?;
        rest = behind;
    }
    Ok(())
}

fn told(alloc: Global, teller: Teller, piece: &[u8]) -> Result<Cue, OutOfMemory> {
    let bytes = Octets::copy(alloc, piece)?;
    Ok(match teller {
        Teller::Client(number) => Cue::Say(number, bytes),
        Teller::Origin(number) => Cue::Answer(number, bytes),
    })
}

pub(crate) fn put(cue: Cue, cues: &mut Vec<Cue>) -> Result<(), OutOfMemory> {
    cues.push(cue).map_err(AllocError::from)?;
    Ok(())
}

/// The pages whose origins answer by themselves.
fn site(alloc: Global) -> Result<Vec<Page>, OutOfMemory> {
    let mut site = Vec::new(alloc);
    for resource in RESOURCES {
        site.push(page(alloc, resource)?).map_err(AllocError::from)?;
    }
    Ok(site)
}

fn page(alloc: Global, resource: &Resource) -> Result<Page, OutOfMemory> {
    let mut body = Octets::empty(alloc);
    for place in 0..resource.len {
        // Bytes tell their offset, so that those of another place show; runs of them are short to write.
        let letter = b'a'.saturating_add((place / RUN % 23) as u8);
        body.append(&[letter])?;
    }
    Ok(Page {
        host: Octets::copy(alloc, resource.host)?,
        path: Octets::copy(alloc, resource.path)?,
        tag: Octets::copy(alloc, resource.tag)?,
        body,
    })
}
