// What clients and origins do, and the program played against it.
ghost use Rattle.std.specs.Prelude.{◌≡◌, IfOk};
ghost use Rattle.pp_memworld.specs.Slots.{AreListed};

use crate::folder::{Op, op_of};
use pp_memworld::{Cue, MemWorld, Script};
use pp_run::{Exit, run};
use pp_text::{Octets, OutOfMemory};
use pp_world::{Cause, Happening, Image, Remark};
use std::alloc::{AllocError, Global};

/// What happens next outside of the program. Connections have the numbers of one series from 1, in
/// the order in which they are accepted and dialled; 0 is the client that connected last.
#[derive(Clone, Copy, Debug)]
pub enum Act<'a> {
    /// The clock, in seconds since 1970.
    Tick(u64),
    /// A client connects.
    Connect,
    /// A client sends this text.
    Say(u64, &'a [u8]),
    /// A client will send no more.
    HangUp(u64),
    /// The connection takes so many bytes more, and then none.
    Window(u64, u64),
    /// A dialled connection is reached.
    Reach(u64),
    /// A dialled connection is refused.
    Refuse(u64),
    /// An origin sends this text.
    Answer(u64, &'a [u8]),
    /// An origin sends so many of this byte.
    Fill(u64, u8, usize),
    /// The same in one piece, at either pace.
    FillWhole(u64, u8, usize),
    /// So many chunks of this byte: where every byte comes alone, the first and the last one of each chunk do.
    FillChunks(u64, u8, usize),
    /// An origin will send no more.
    End(u64),
    /// The next read or write of this connection fails.
    Break(u64),
    /// The program is to end.
    Stop,
    /// The calls of these numbers fail in this life: reads, writes, listening, dials and those of the disk, from 1.
    Failing(&'a [u64]),
    /// The machine stops as this operation begins for the first time, or where all that came before was played, and a life more
    /// begins over what the crash leaves by this choice.
    Crash(Option<Op>, u64),
}

/// How long a chunk is.
const CHUNK_LEN: usize = 4_096;

/// How texts come.
#[derive(Clone, Copy, Debug, PartialEq, Eq)]
pub enum Pace {
    /// Each in one piece.
    Whole,
    /// Every byte alone.
    Bytewise,
}

pub const PACES: [Pace; 2] = [Pace::Whole, Pace::Bytewise];

/// A run of the program that ended.
#[derive(Drop)]
pub struct Played {
    pub exit: Exit,
    world: Box<MemWorld>,
    alloc: Global,
}

/// The words that exchanges are played with: a host has few connections, and asks go behind one another on them, so that
/// an order shows on a few connections.
pub const WORDS: &[&str] = &["hostConnections=4", "pipelineAsks=1"];

/// Plays these acts, without a call that fails.
pub fn play(alloc: Global, pace: Pace, acts: &[Act<'_>]) -> Result<Played, OutOfMemory> {
    play_with(alloc, WORDS, pace, acts, &[])
}

/// The same with these words, where the calls of these numbers fail: reads, writes, listening and dials, from 1. Lives follow
/// each other where the acts crash.
pub fn play_with(
    alloc: Global,
    words: &[&str],
    pace: Pace,
    acts: &[Act<'_>],
    failing: &[u64],
) -> Result<Played, OutOfMemory> {
    play_over(alloc, words, pace, Image::new(alloc), acts, failing)
}

/// The same over a folder with these files.
pub fn play_over(
    alloc: Global,
    words: &[&str],
    pace: Pace,
    image: Image,
    acts: &[Act<'_>],
    failing: &[u64],
) -> Result<Played, OutOfMemory>
    requires listed { AreListed image }
{
    let (mut end, mut crash) = life_end(acts, 0);
    let life = acts.get(..end).unwrap_or(&[]);
    let mut played = life_over(alloc, words, pace, image, life, failing)?;
    for _life in 0..LIVES {
        let Some(crashed) = crash else {
            break;
        };
        let from = end.saturating_add(1);
        let (at, next) = life_end(acts, from);
        let life = acts.get(from..at).unwrap_or(&[]);
        let place = crash_place(played.log(), crashed.begins);
        played = next_life(alloc, words, pace, life, &played, place, crashed.choice)?;
        end = at;
        crash = next;
    }
    match played.told() {
        Some(_) => Ok(played),
        None => Err(OutOfMemory),
    }
}

/// So many lives follow the first at most.
const LIVES: u64 = 4;

/// How a life crashes.
#[derive(Clone, Copy)]
struct Crash {
    begins: Option<Op>,
    choice: u64,
}

/// Where the life ends that begins with the act at this place, and how it crashes where another follows.
fn life_end(acts: &[Act<'_>], from: usize) -> (usize, Option<Crash>) {
    for (at, act) in acts.iter().enumerate() {
        if let Act::Crash(begins, choice) = act {
            if from <= at {
                let crash = Crash {
                    begins: *begins,
                    choice: *choice,
                };
                return (at, Some(crash));
            }
        }
    }
    (acts.len(), None)
}

/// A life over an empty folder, where the calls of these numbers fail.
pub fn first_life(
    alloc: Global,
    words: &[&str],
    pace: Pace,
    acts: &[Act<'_>],
    failing: &[u64],
) -> Result<Played, OutOfMemory> {
    life_over(alloc, words, pace, Image::new(alloc), acts, failing)
}

/// The same over a folder with these files.
#[tactic(auto, using(pp_shelf::proofs::OpeningLemmas::fresh_first))]
fn life_over(
    alloc: Global,
    words: &[&str],
    pace: Pace,
    image: Image,
    acts: &[Act<'_>],
    failing: &[u64],
) -> Result<Played, OutOfMemory>
    requires listed { AreListed image }
{
    let words = strings(alloc, words)?;
    let script = script_of(alloc, pace, acts)?;
    let failing = failing_of(alloc, acts, failing)?;
    let mut world = boxed(alloc, MemWorld::new(alloc, script, image, failing)?)?;
    let exit = run(alloc, words.as_slice(), &mut *world);
    Ok(Played { exit, world, alloc })
}

/// The life behind a crash of that one behind its first `at` happenings, by this choice of what is left.
#[tactic(auto, using(pp_run::proofs::Fresh::fresh_crashed))]
pub fn next_life(
    alloc: Global,
    words: &[&str],
    pace: Pace,
    acts: &[Act<'_>],
    before: &Played,
    at: usize,
    choice: u64,
) -> Result<Played, OutOfMemory> {
    let words = strings(alloc, words)?;
    let script = script_of(alloc, pace, acts)?;
    let failing = failing_of(alloc, acts, &[])?;
    let crashed = before.world.crash(alloc, at, choice, script, failing)?;
    let Some(next) = crashed else {
        return Err(OutOfMemory);
    };
    let mut world = boxed(alloc, next)?;
    let exit = run(alloc, words.as_slice(), &mut *world);
    Ok(Played { exit, world, alloc })
}

/// How many happenings there were as this operation began, or all.
fn crash_place(log: &[Happening], begins: Option<Op>) -> usize {
    for (at, happening) in log.iter().enumerate() {
        if let Happening::Began(op) = happening {
            if begins == Some(op_of(op)) {
                return at.saturating_add(1);
            }
        }
    }
    log.len()
}

/// The numbers of the calls that fail in a life: these, and those that its acts name.
fn failing_of(alloc: Global, acts: &[Act<'_>], failing: &[u64]) -> Result<Vec<u64>, OutOfMemory> {
    let mut numbers = Vec::from_slice(alloc, failing)?;
    for act in acts {
        if let Act::Failing(more) = act {
            numbers.extend_from_slice(more)?;
        }
    }
    Ok(numbers)
}

fn strings(alloc: Global, words: &[&str]) -> Result<Vec<String>, OutOfMemory> {
    let mut strings = Vec::new(alloc);
    for word in words {
        let word = String::from_str(alloc, word)?;
        strings.push(word).map_err(AllocError::from)?;
    }
    Ok(strings)
}

/// A world of its own place, so that whoever lets go of it lets go of one thing.
pub fn boxed(alloc: Global, world: MemWorld) -> Result<Box<MemWorld>, OutOfMemory>
    ensures { IfOk result (λ b. b.value ≡ world) }
{
    Box::new(alloc, world).map_err(|_| OutOfMemory)
}

impl Played {
    /// What happened, of this life and of those before it. The world stops telling where memory is refused for that.
    pub fn told(&self) -> Option<&[Happening]> {
        self.world.log()
    }

    /// The same; nothing where it is not told.
    pub fn log(&self) -> &[Happening] {
        self.told().unwrap_or(&[])
    }

    pub fn alloc(&self) -> Global {
        self.alloc
    }

    /// The world as its last life left it.
    pub fn world(&self) -> &MemWorld {
        &*self.world
    }

    /// All that this client was said.
    pub fn said(&self, c: u64) -> Result<Vec<u8>, OutOfMemory> {
        let mut text = Vec::new(self.alloc);
        for happening in self.log() {
            if let Happening::Said(client, _, bytes) = happening {
                if *client == c {
                    text.extend_from_slice(bytes.as_slice())?;
                }
            }
        }
        Ok(text)
    }

    /// All that this origin was asked.
    pub fn asked(&self, k: u64) -> Result<Vec<u8>, OutOfMemory> {
        let mut text = Vec::new(self.alloc);
        for happening in self.log() {
            if let Happening::Asked(origin, bytes) = happening {
                if *origin == k {
                    text.extend_from_slice(bytes.as_slice())?;
                }
            }
        }
        Ok(text)
    }

    /// Why this client was cut, where it was.
    pub fn cause(&self, c: u64) -> Option<Cause> {
        for happening in self.log() {
            if let Happening::Noted(Remark::Cut(client, cause)) = happening {
                if *client == c {
                    return Some(*cause);
                }
            }
        }
        None
    }
}

fn script_of(alloc: Global, pace: Pace, acts: &[Act<'_>]) -> Result<Script, OutOfMemory> {
    let mut cues = Vec::new(alloc);
    for act in acts {
        put_cues(alloc, pace, *act, &mut cues)?;
    }
    Ok(Script {
        cues,
        site: Vec::new(alloc),
    })
}

/// Adds the cues of an act: one, or one for each byte of its text.
fn put_cues(
    alloc: Global,
    pace: Pace,
    act: Act<'_>,
    cues: &mut Vec<Cue>,
) -> Result<(), OutOfMemory> {
    match act {
        Act::Say(c, text) => {
            for piece in pieces(alloc, pace, text)? {
                put(Cue::Say(c, piece), cues)?;
            }
            Ok(())
        }
        Act::Answer(k, text) => put_answers(alloc, pace, k, text, cues),
        Act::Fill(k, byte, count) => put_fill(alloc, pace, k, byte, count, cues),
        Act::FillWhole(k, byte, count) => put_fill(alloc, Pace::Whole, k, byte, count, cues),
        Act::FillChunks(k, byte, count) => put_chunks(alloc, pace, k, byte, count, cues),
        Act::Tick(seconds) => put(Cue::Tick(seconds), cues),
        Act::Connect => put(Cue::Connect, cues),
        Act::HangUp(c) => put(Cue::HangUp(c), cues),
        Act::Window(id, room) => put(Cue::Window(id, room), cues),
        Act::Reach(k) => put(Cue::Reach(k), cues),
        Act::Refuse(k) => put(Cue::Refuse(k), cues),
        Act::End(k) => put(Cue::End(k), cues),
        Act::Break(id) => put(Cue::Break(id), cues),
        Act::Stop => put(Cue::Stop, cues),
        Act::Failing(_) | Act::Crash(_, _) => Ok(()),
    }
}

/// Adds the cues of so many chunks of this byte.
fn put_chunks(
    alloc: Global,
    pace: Pace,
    k: u64,
    byte: u8,
    count: usize,
    cues: &mut Vec<Cue>,
) -> Result<(), OutOfMemory> {
    if pace == Pace::Whole {
        return put_fill(alloc, pace, k, byte, count.saturating_mul(CHUNK_LEN), cues);
    }
    for _chunk in 0..count {
        put_fill(alloc, pace, k, byte, 1, cues)?;
        put_fill(alloc, Pace::Whole, k, byte, CHUNK_LEN - 2, cues)?;
        put_fill(alloc, pace, k, byte, 1, cues)?;
    }
    Ok(())
}

/// Adds the cues of so many of this byte.
fn put_fill(
    alloc: Global,
    pace: Pace,
    k: u64,
    byte: u8,
    count: usize,
    cues: &mut Vec<Cue>,
) -> Result<(), OutOfMemory> {
    let text = vec![in alloc; byte; count]?;
    put_answers(alloc, pace, k, text.as_slice(), cues)
}

/// Adds the cues of a text that an origin sends.
fn put_answers(
    alloc: Global,
    pace: Pace,
    k: u64,
    text: &[u8],
    cues: &mut Vec<Cue>,
) -> Result<(), OutOfMemory> {
    for piece in pieces(alloc, pace, text)? {
        put(Cue::Answer(k, piece), cues)?;
    }
    Ok(())
}

fn put(cue: Cue, cues: &mut Vec<Cue>) -> Result<(), OutOfMemory> {
    cues.push(cue).map_err(AllocError::from)?;
    Ok(())
}

/// The pieces in which a text comes.
fn pieces(alloc: Global, pace: Pace, text: &[u8]) -> Result<Vec<Octets>, OutOfMemory> {
    let mut pieces = Vec::new(alloc);
    match pace {
        Pace::Whole => {
            let whole = Octets::copy(alloc, text)?;
            pieces.push(whole).map_err(AllocError::from)?;
        }
        Pace::Bytewise => {
            for byte in text {
                let piece = Octets::copy(alloc, &[*byte])?;
                pieces.push(piece).map_err(AllocError::from)?;
            }
        }
    }
    Ok(pieces)
}
