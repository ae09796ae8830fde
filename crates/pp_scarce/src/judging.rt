// What the course came to.
use pp_cache_exchanges::{ALONE, COURSE, MAY_BE_SAID, MaySay, Reply};
use pp_play::{Fit, Pace, Part, Played, first_life, fit_of};
use pp_run::Exit;
use pp_text::OutOfMemory;
use pp_world::{Cause, Happening, Remark};
use std::alloc::Global;

/// What the course came to, where memory was refused once at most.
#[derive(Clone, Copy, Debug, PartialEq, Eq)]
pub(crate) enum Outcome {
    /// Each client is said what it asks for, and all is kept: whatever was refused was asked for once more, or was not needed.
    Whole,
    /// Each client is said what it asks for; the last page, of which no more comes, is not kept.
    Unkept,
    /// One client is told that there is no memory, and each other one is said what it may be.
    Told,
    /// One client is cut, and each other one is said what it may be.
    Cut,
    /// The program ended before it listened, with its line.
    Ended,
    /// The world had no memory to tell what happened; the program went on to the end.
    Untold,
    /// The test had none to play it, or to judge it.
    Unplayed,
    /// Anything else.
    Wrong,
}

impl Outcome {
    pub(crate) fn line(self) -> &'static str {
        match self {
            Outcome::Whole => "each client is served, and all is kept\n",
            Outcome::Unkept => "each client is served, and the last page is not kept\n",
            Outcome::Told => "one client is told that there is no memory\n",
            Outcome::Cut => "one client is cut\n",
            Outcome::Ended => "the program ends before it listens\n",
            Outcome::Untold => "the world does not tell what happened\n",
            Outcome::Unplayed => "the course is not played, or not judged\n",
            Outcome::Wrong => "it came to what it may not\n",
        }
    }
}

/// Plays the course, and judges it.
pub(crate) fn played(alloc: Global) -> Result<Outcome, OutOfMemory> {
    let life = first_life(alloc, ALONE, Pace::Whole, COURSE, &[])?;
    match life.exit {
        Exit::Served | Exit::ServedAstray => served(&life),
        Exit::NoMemory => ended(alloc, &life),
        Exit::Usage | Exit::NoDisk | Exit::NoListener | Exit::NoConfig => Ok(Outcome::Wrong),
    }
}

/// The program ended before it served anybody, and says why.
fn ended(alloc: Global, life: &Played) -> Result<Outcome, OutOfMemory> {
    let Some(log) = life.told() else {
        return Ok(Outcome::Wrong);
    };
    let mut printed = Vec::new(alloc);
    for happening in log {
        match happening {
            Happening::Printed(bytes) => printed.extend_from_slice(bytes.as_slice())?,
            Happening::Listens(_, _) | Happening::Waits(_) => return Ok(Outcome::Wrong),
            _ => {}
        }
    }
    if printed.as_slice() == b"polipo: out of memory\n".as_slice() {
        Ok(Outcome::Ended)
    } else {
        Ok(Outcome::Wrong)
    }
}

/// It served until the world stopped it.
fn served(life: &Played) -> Result<Outcome, OutOfMemory> {
    let Some(log) = life.told() else {
        return Ok(Outcome::Untold);
    };
    let mut all = Outcome::Whole;
    for may_say in MAY_BE_SAID {
        all = match (all, of_client(life, may_say)?) {
            (all, Outcome::Whole) => all,
            (Outcome::Whole, one) => one,
            (_, _) => Outcome::Wrong,
        };
    }
    Ok(match all {
        Outcome::Whole => kept_in(log),
        other => other,
    })
}

const PAGE_500: &[Part<'static>] = &[Part::Text(
    b"HTTP/1.1 500 Internal Server Error\r\ncontent-type: text/plain\r\ncontent-length: 26\r\nconnection: keep-alive\r\n\r\n500 Internal Server Error\n",
)];

/// What this client came to: whole, told, cut, or wrong.
fn of_client(life: &Played, may_say: &MaySay) -> Result<Outcome, OutOfMemory> {
    let said = life.said(may_say.client)?;
    let cause = life.cause(may_say.client);
    if fit_of(said.as_slice(), PAGE_500) == Fit::Whole && cause.is_none() {
        return Ok(Outcome::Told);
    }
    match of_replies(said.as_slice(), may_say.replies, cause) {
        Outcome::Wrong => Ok(of_replies(said.as_slice(), may_say.scarce, cause)),
        other => Ok(other),
    }
}

/// The first of these replies that it is one of.
fn of_replies(said: &[u8], replies: &[Reply], cause: Option<Cause>) -> Outcome {
    for reply in replies {
        match of_reply(said, reply, cause) {
            Outcome::Wrong => {}
            other => return other,
        }
    }
    Outcome::Wrong
}

fn of_reply(said: &[u8], reply: &Reply, cause: Option<Cause>) -> Outcome {
    match fit_of(said, reply.parts) {
        Fit::Whole if cause == reply.cause => Outcome::Whole,
        Fit::Whole | Fit::Front if cause == Some(Cause::Memory) => Outcome::Cut,
        Fit::Whole | Fit::Front | Fit::Unlike => Outcome::Wrong,
    }
}

/// Whether all is kept, where each client is served. What could not be kept of the first page is tried anew when more of it
/// comes.
fn kept_in(log: &[Happening]) -> Outcome {
    let is_first_kept = log.iter().any(|happening| matches!(
        happening,
        Happening::Noted(Remark::Kept(_, _, 12_288, 4_096))
    ));
    let is_last_kept = log.iter().any(|happening| matches!(
        happening,
        Happening::Noted(Remark::Kept(_, _, 3, 3))
    ));
    match (is_first_kept, is_last_kept) {
        (true, true) => Outcome::Whole,
        (true, false) => Outcome::Unkept,
        (false, _) => Outcome::Wrong,
    }
}
