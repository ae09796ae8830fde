// What is played, and what is wanted of it.
use crate::course::Step;
use crate::fitting::{Fit, Part, fit_of};
use crate::folder::Filed;
use crate::playing::{Act, PACES, Pace, Played, WORDS, play, play_with};
use crate::texts::{joined, joined_acts};
use pp_run::Exit;
use pp_text::OutOfMemory;
use pp_world::{Cause, Decision, Happening, Remark};
use std::alloc::Global;

/// What clients and origins do, and what the program is to do.
#[derive(Clone, Copy, Debug)]
pub struct Exchange<'a> {
    /// What it shows.
    pub name: &'a str,
    pub acts: &'a [Act<'a>],
    pub wanted: &'a [Wanted<'a>],
}

/// What is wanted of the program.
#[derive(Clone, Copy, Debug)]
pub enum Wanted<'a> {
    /// This client is said these parts, and nothing more.
    Said(u64, &'a [Part<'a>]),
    /// This origin is asked just these texts, one behind the other.
    Asked(u64, &'a [&'a [u8]]),
    /// This was decided for a request of this client.
    Taken(u64, Decision),
    /// This client was cut for this cause, and shut.
    Cut(u64, Cause),
    /// This client was shut before the program ended.
    Shut(u64),
    /// The connection of this number is one to this host and port.
    Dialled(u64, &'a [u8], u16),
    /// The course of this connection.
    Course(u64, &'a [Step]),
    /// This step comes so often, of all connections.
    Count(Step, u64),
    /// So many connections at most had the first step, and not yet the second.
    MostOpen(Step, Step, u64),
    /// So many bytes at most were read from some connections, and not yet written to others.
    MostHeld(usize),
    /// The course of the folder, through all lives.
    Filed(&'a [Filed]),
    /// The program ends so.
    Exit(Exit),
}

/// Where these exchanges go otherwise than wanted, at either pace: nothing is said where none does.
pub fn unlike(alloc: Global, exchanges: &[Exchange<'_>]) -> Result<String, OutOfMemory> {
    unlike_with(alloc, WORDS, exchanges)
}

/// The same with these words for the program.
pub fn unlike_with(
    alloc: Global,
    words: &[&str],
    exchanges: &[Exchange<'_>],
) -> Result<String, OutOfMemory> {
    for pace in PACES {
        let said = unlike_by(alloc, words, pace, exchanges)?;
        if !said.is_empty() {
            return Ok(said);
        }
    }
    Ok(String::new(alloc))
}

/// The same at one pace.
pub fn unlike_at(
    alloc: Global,
    pace: Pace,
    exchanges: &[Exchange<'_>],
) -> Result<String, OutOfMemory> {
    unlike_by(alloc, WORDS, pace, exchanges)
}

/// The same with these words, at one pace.
pub fn unlike_by(
    alloc: Global,
    words: &[&str],
    pace: Pace,
    exchanges: &[Exchange<'_>],
) -> Result<String, OutOfMemory> {
    for exchange in exchanges {
        let played = play_with(alloc, words, pace, exchange.acts, &[])?;
        for wanted in exchange.wanted {
            if !is_met(alloc, &played, *wanted)? {
                return tell(alloc, &played, exchange.name, *wanted);
            }
        }
    }
    Ok(String::new(alloc))
}

/// Sizes of a window, in bytes.
#[derive(Clone, Copy)]
pub struct Sizes {
    pub first: u64,
    pub apart: u64,
    pub count: u64,
}

/// Through a window of which size client 1 is said anything but these parts: nothing is said where there is none. For each size,
/// so many from the first on and so far apart, these acts are played, then its connection takes so many bytes, then so many
/// more, and then all.
pub fn unlike_through_windows(
    alloc: Global,
    sizes: Sizes,
    acts: &[Act<'_>],
    parts: &[Part<'_>],
) -> Result<String, OutOfMemory> {
    for number in 0..sizes.count {
        let size = sizes
            .first
            .saturating_add(number.saturating_mul(sizes.apart));
        let windows = [
            Act::Window(1, size),
            Act::Window(1, size),
            Act::Window(1, u64::MAX),
        ];
        let acts = joined_acts(alloc, &[acts, &windows])?;
        let played = play(alloc, Pace::Whole, acts.as_slice())?;
        if fit_of(played.said(1)?.as_slice(), parts) != Fit::Whole {
            return Ok(format!(in alloc; "through windows of {size} bytes")?);
        }
    }
    Ok(String::new(alloc))
}

/// Whether the program did what is wanted.
fn is_met(alloc: Global, played: &Played, wanted: Wanted<'_>) -> Result<bool, OutOfMemory> {
    match wanted {
        Wanted::Said(c, parts) => Ok(fit_of(played.said(c)?.as_slice(), parts) == Fit::Whole),
        Wanted::Asked(k, texts) => {
            Ok(played.asked(k)?.as_slice() == joined(alloc, texts)?.as_slice())
        }
        Wanted::Taken(c, decision) => Ok(is_taken(played.log(), c, decision)),
        Wanted::Cut(c, cause) => Ok(is_cut(played.log(), c, cause) && is_shut(played.log(), c)),
        Wanted::Shut(c) => Ok(is_shut(played.log(), c)),
        Wanted::Dialled(k, host, port) => Ok(is_dialled(played.log(), k, host, port)),
        Wanted::Course(id, steps) => Ok(played.course(id)?.as_slice() == steps),
        Wanted::Count(step, count) => Ok(played.count(step) == count),
        Wanted::MostOpen(opens, closes, count) => Ok(played.most_open(opens, closes) == count),
        Wanted::MostHeld(bytes) => Ok(played.most_held() <= bytes),
        Wanted::Filed(steps) => Ok(played.filed()?.as_slice() == steps),
        Wanted::Exit(exit) => Ok(played.exit == exit),
    }
}

/// Whether this was decided for a request of this client.
fn is_taken(log: &[Happening], c: u64, wanted: Decision) -> bool {
    for happening in log {
        if let Happening::Noted(Remark::Taken(client, _, decision)) = happening {
            if *client == c && *decision == wanted {
                return true;
            }
        }
    }
    false
}

fn is_cut(log: &[Happening], c: u64, wanted: Cause) -> bool {
    for happening in log {
        if let Happening::Noted(Remark::Cut(client, cause)) = happening {
            if *client == c && *cause == wanted {
                return true;
            }
        }
    }
    false
}

/// Whether this client was shut before the world stopped the program.
fn is_shut(log: &[Happening], c: u64) -> bool {
    for happening in log {
        match happening {
            Happening::Shut(client) if *client == c => return true,
            Happening::Stopped => return false,
            _ => {}
        }
    }
    false
}

/// Whether connection `k` is one to this host and port.
fn is_dialled(log: &[Happening], k: u64, host: &[u8], port: u16) -> bool {
    for happening in log {
        if let Happening::Dialled(number, name, dialled) = happening {
            if *number == k {
                return name.as_slice() == host && *dialled == port;
            }
        }
    }
    false
}

/// What was wanted, and what came in its place.
fn tell(
    alloc: Global,
    played: &Played,
    name: &str,
    wanted: Wanted<'_>,
) -> Result<String, OutOfMemory> {
    let text = match wanted {
        Wanted::Said(c, _) => lossy(alloc, played.said(c)?.as_slice())?,
        Wanted::Asked(k, _) => lossy(alloc, played.asked(k)?.as_slice())?,
        Wanted::Taken(id, _) | Wanted::Cut(id, _) | Wanted::Shut(id) | Wanted::Course(id, _) =>
            format!(in alloc; "{:?}", played.course(id)?.as_slice())?,
        Wanted::Count(step, _) => format!(in alloc; "{}", played.count(step))?,
        Wanted::MostOpen(opens, closes, _) => format!(in alloc;
            "{}",
            played.most_open(opens, closes)
        )?,
        Wanted::MostHeld(_) => format!(in alloc; "{}", played.most_held())?,
        Wanted::Filed(_) => format!(in alloc; "{:?}", played.filed()?.as_slice())?,
        Wanted::Exit(_) => format!(in alloc; "{:?}", played.exit)?,
        Wanted::Dialled(_, _, _) => String::new(alloc),
    };
    Ok(format!(in alloc; "{name}: wanted {wanted:?}, and came {text}")?)
}

/// A text as it is printed.
fn lossy(alloc: Global, text: &[u8]) -> Result<String, OutOfMemory> {
    let text = String::from_utf8_lossy(alloc, text)?;
    Ok(format!(in alloc; "{text:?}")?)
}
