// A log as it is written down, line by line.
use pp_play::{Act, Op, Pace, Step, joined_acts, named_step, op_of, play_with};
use pp_text::OutOfMemory;
use pp_world::{Happening, Remark};
use std::alloc::{AllocError, Global};

/// A happening, as it is written down.
#[derive(Clone, Copy, Debug, PartialEq, Eq)]
pub(crate) enum Line<'a> {
    /// A life begins, over a folder with a file or without one.
    Woke(bool),
    /// It uses this folder, and lists it.
    Uses(&'a [u8]),
    Listed,
    Listens(u16),
    /// New clients are waited for, these connections to be read, and those to be written.
    Waits(&'a [u64], &'a [u64]),
    Clock(u64),
    CanRead(u64),
    CanWrite(u64),
    Heard(u64, &'a [u8]),
    /// A client was offered so many bytes, and took these.
    Said(u64, u64, &'a [u8]),
    Dialled(u64, &'a [u8], u16),
    /// A dial of this host and port failed.
    Undialled(&'a [u8], u16),
    Asked(u64, &'a [u8]),
    Got(u64, &'a [u8]),
    /// So many of this byte, behind the text of the line before.
    Fill(u8, usize),
    Of(u64, Step),
    Began(Op),
    Did(Op),
    Failed(Op),
    /// A file could not be read.
    Unread,
    /// So many bytes of a body of so many are kept.
    Kept(u64, u64),
    Gone,
    /// The chunk of this number was read back.
    Loaded(u64),
    Stopped,
    Other,
    /// In what is wanted: this origin sends a text so often, each byte of which is got alone and then said to this client, behind
    /// the last wait but one; behind the last wait its next byte can be read.
    Streamed(u64, u64, &'a [u8], usize),
}

/// What is done at this pace, with these words, and the log of it through all lives: parts of each, one behind the other.
///
/// Where every byte comes alone, a text that is heard or got stands for its bytes, each but the first behind a wait as the one
/// before; what fills a text without a byte came in one piece.
pub(crate) struct Told {
    pub(crate) name: &'static str,
    pub(crate) words: &'static [&'static str],
    pub(crate) pace: Pace,
    pub(crate) acts: &'static [&'static [Act<'static>]],
    pub(crate) lines: &'static [&'static [Line<'static>]],
}

/// Words by which runs of 16 chunks are kept; each chunk alone; and two at a time.
pub(crate) const SIXTEEN: &[&str] = &["hostConnections=4", "pipelineAsks=1"];

pub(crate) const ONE: &[&str] = &["hostConnections=4", "pipelineAsks=1", "diskRun=1"];

pub(crate) const TWO: &[&str] = &["hostConnections=4", "pipelineAsks=1", "diskRun=2"];

/// Where a log has other lines than these: nothing is said where none has.
pub(crate) fn unlike(alloc: Global, all: &[Told]) -> Result<String, OutOfMemory> {
    for told in all {
        let acts = joined_acts(alloc, told.acts)?;
        let played = play_with(alloc, told.words, told.pace, acts.as_slice(), &[])?;
        let said = unlike_log(alloc, told, played.log())?;
        if !said.is_empty() {
            return Ok(said);
        }
    }
    Ok(String::new(alloc))
}

/// The same of one log.
pub(crate) fn unlike_log<'a>(
    alloc: Global,
    told: &Told,
    log: &'a [Happening],
) -> Result<String, OutOfMemory> {
    let lines: Vec<Line<'a>> = lines_of(alloc, log)?;
    let wanted: Vec<Line<'a>> = wanted_lines(alloc, told)?;
    if lines.as_slice() == wanted.as_slice() {
        return Ok(String::new(alloc));
    }
    let (name, pace) = (told.name, told.pace);
    Ok(format!(in alloc;
        "{name}, {pace:?}: wanted {:?}, and came {:?}",
        wanted.as_slice(),
        lines.as_slice()
    )?)
}

// ---- what is wanted

fn wanted_lines<'a>(alloc: Global, told: &Told) -> Result<Vec<Line<'a>>, OutOfMemory> {
    let mut lines = Vec::new(alloc);
    for part in told.lines {
        for line in *part {
            match told.pace {
                Pace::Whole => put(*line, &mut lines)?,
                Pace::Bytewise => put_bytewise(*line, &mut lines)?,
            }
        }
    }
    Ok(lines)
}

fn put<'a>(line: Line<'a>, lines: &mut Vec<Line<'a>>) -> Result<(), OutOfMemory> {
    lines.push(line).map_err(AllocError::from)?;
    Ok(())
}

/// Adds a line, or those of each byte that it stands for.
fn put_bytewise<'a>(line: Line<'a>, lines: &mut Vec<Line<'a>>) -> Result<(), OutOfMemory> {
    match line {
        Line::Heard(id, text) | Line::Got(id, text) if !text.is_empty() => {
            put_read(line, id, text, lines)
        }
        Line::Streamed(k, c, text, times) => put_streamed(k, c, text, times, lines),
        other => put(other, lines),
    }
}

fn put_read<'a>(
    line: Line<'a>,
    id: u64,
    text: &'a [u8],
    lines: &mut Vec<Line<'a>>,
) -> Result<(), OutOfMemory> {
    let (_, wait) = last_waits(lines.as_slice());
    for (at, byte) in text.chunks(1).enumerate() {
        if at != 0 {
            lines.extend_from_slice(&[wait, Line::CanRead(id)])?;
        }
        if let Line::Heard(_, _) = line {
            put(Line::Heard(id, byte), lines)?;
        } else {
            put(Line::Got(id, byte), lines)?;
        }
    }
    Ok(())
}

fn put_streamed<'a>(
    k: u64,
    c: u64,
    text: &'a [u8],
    times: usize,
    lines: &mut Vec<Line<'a>>,
) -> Result<(), OutOfMemory> {
    let (writes, reads) = last_waits(lines.as_slice());
    for _ in 0..times {
        for byte in text.chunks(1) {
            lines.extend_from_slice(&[
                Line::Got(k, byte),
                writes,
                Line::CanWrite(c),
                Line::Said(c, 1, byte),
                reads,
                Line::CanRead(k),
            ])?;
        }
    }
    Ok(())
}

/// The last two of these lines that are waits.
fn last_waits<'a>(lines: &[Line<'a>]) -> (Line<'a>, Line<'a>) {
    let mut last = (Line::Other, Line::Other);
    for line in lines {
        if let Line::Waits(_, _) = line {
            last = (last.1, *line);
        }
    }
    last
}

// ---- what happened

fn lines_of(alloc: Global, log: &[Happening]) -> Result<Vec<Line<'_>>, OutOfMemory> {
    let mut lines = Vec::new(alloc);
    for happening in log {
        put_line(line_of(happening), &mut lines)?;
    }
    Ok(lines)
}

/// Adds a line, and behind it what fills its text.
fn put_line<'a>(line: Line<'a>, lines: &mut Vec<Line<'a>>) -> Result<(), OutOfMemory> {
    match line {
        Line::Said(c, offered, text) => {
            let (front, filled) = text.split_at(front_len(text).min(text.len()));
            put(Line::Said(c, offered, front), lines)?;
            put_fills(filled, lines)
        }
        Line::Got(k, text) => {
            let (front, filled) = text.split_at(front_len(text).min(text.len()));
            put(Line::Got(k, front), lines)?;
            put_fills(filled, lines)
        }
        other => put(other, lines),
    }
}

/// So many of the same byte fill a text.
const FILLED: usize = 1_000;

/// How much of a text stands before what fills it.
fn front_len(text: &[u8]) -> usize {
    let mut same: usize = 0;
    let mut last = 0;
    for (at, byte) in text.iter().enumerate() {
        same = if *byte == last {
            same.saturating_add(1)
        } else {
            1
        };
        last = *byte;
        if same == FILLED {
            return at.saturating_sub(FILLED - 1);
        }
    }
    text.len()
}

fn put_fills<'a>(filled: &[u8], lines: &mut Vec<Line<'a>>) -> Result<(), OutOfMemory> {
    for byte in filled {
        match lines.last().copied() {
            Some(Line::Fill(same, count)) if same == *byte => {
                if let Some(line) = lines.last_mut() {
                    *line = Line::Fill(same, count.saturating_add(1));
                }
            }
            Some(_) | None => put(Line::Fill(*byte, 1), lines)?,
        }
    }
    Ok(())
}

fn line_of(happening: &Happening) -> Line<'_> {
    match happening {
        Happening::Woke(image) => Line::Woke(image.next_name(None).is_some()),
        Happening::Rooted(folder) => Line::Uses(folder.as_slice()),
        Happening::Listed(true) => Line::Listed,
        Happening::Listens(port, true) => Line::Listens(*port),
        Happening::Waits(wants) if wants.accept => {
            Line::Waits(wants.read.as_slice(), wants.write.as_slice())
        }
        Happening::Clock(seconds) => Line::Clock(*seconds),
        Happening::CanRead(id) => Line::CanRead(*id),
        Happening::CanWrite(id) => Line::CanWrite(*id),
        Happening::Stopped => Line::Stopped,
        other => text_line_of(other),
    }
}

/// Of a happening that has a text, or is a step in the course of a connection.
fn text_line_of(happening: &Happening) -> Line<'_> {
    match happening {
        Happening::Heard(c, bytes) => Line::Heard(*c, bytes.as_slice()),
        Happening::Said(c, offered, bytes) => Line::Said(*c, *offered, bytes.as_slice()),
        Happening::Dialled(k, host, port) => Line::Dialled(*k, host.as_slice(), *port),
        Happening::Undialled(host, port) => Line::Undialled(host.as_slice(), *port),
        Happening::Asked(k, bytes) => Line::Asked(*k, bytes.as_slice()),
        Happening::Got(k, bytes) => Line::Got(*k, bytes.as_slice()),
        other => disk_line_of(other),
    }
}

/// Of a happening on the disk, or a step in the course of a connection.
fn disk_line_of(happening: &Happening) -> Line<'_> {
    match happening {
        Happening::Began(op) => Line::Began(op_of(op)),
        Happening::Did(op, true) => Line::Did(op_of(op)),
        Happening::Did(op, false) => Line::Failed(op_of(op)),
        Happening::Unread(_) => Line::Unread,
        Happening::Noted(Remark::Kept(_, _, length, extent)) => Line::Kept(*length, *extent),
        Happening::Noted(Remark::Gone(_)) => Line::Gone,
        Happening::Noted(Remark::Loaded(_, _, _, index)) => Line::Loaded(*index),
        other => match named_step(other) {
            Some((id, step)) => Line::Of(id, step),
            None => Line::Other,
        },
    }
}
