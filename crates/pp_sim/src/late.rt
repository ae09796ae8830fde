// Many clients of one page, and origins that answer late: otherwise than before, in the midst of another reply, or to what their
// clients want no more.
use crate::dice::Dice;
use crate::scripts::{ALL, BEGIN, NUMBERS, put, put_reached};
use pp_memworld::{Cue, Script};
use pp_text::{Octets, OutOfMemory};
use std::alloc::Global;

/// So many clients come first: connections of greater numbers are origins.
const CLIENTS: u64 = 6;

/// What is sent at once: a text, and behind it runs of one byte.
struct Burst {
    text: &'static [u8],
    runs: &'static [(u8, usize)],
}

/// Half of the page, which has 8,192 bytes, and what it is.
const FRONT: &[u8] = b"GET http://h/r HTTP/1.1\r\nRange: bytes=0-4095\r\n\r\n";

const KNOWN: Burst = Burst {
    text: b"HTTP/1.1 206 Partial Content\r\nETag: \"x\"\r\nCache-Control: max-age=60\r\nContent-Range: bytes 0-4095/8192\r\nContent-Length: 4096\r\n\r\n",
    runs: &[(b'a', 4096)],
};

/// Requests for the page.
const READS: &[&[u8]] = &[
    b"GET http://h/r HTTP/1.1\r\n\r\n",
    FRONT,
    b"GET http://h/r HTTP/1.1\r\nRange: bytes=4000-4999\r\n\r\n",
    b"GET http://h/r HTTP/1.1\r\nRange: bytes=5000-8191\r\n\r\n",
    b"GET http://h/r HTTP/1.1\r\nRange: bytes=-100\r\n\r\n",
    b"GET http://h/r HTTP/1.1\r\nCache-Control: no-cache\r\n\r\n",
    b"GET http://h/r HTTP/1.1\r\nCache-Control: no-store\r\n\r\n",
    b"POST http://h/r HTTP/1.1\r\nContent-Length: 2\r\n\r\nab",
];

/// Answers to them, and more of a body. The bytes of the page under "x" tell their half, and those of each other answer tell which
/// it is.
const BURSTS: &[Burst] = &[
    Burst {
        text: b"HTTP/1.1 200 OK\r\nETag: \"x\"\r\nCache-Control: max-age=60\r\nContent-Length: 8192\r\n\r\n",
        runs: &[(b'a', 4096), (b'b', 4096)],
    },
    Burst {
        text: b"HTTP/1.1 200 OK\r\nETag: \"x\"\r\nCache-Control: max-age=60\r\nContent-Length: 8192\r\n\r\n",
        runs: &[(b'a', 4000)],
    },
    KNOWN,
    Burst {
        text: b"HTTP/1.1 206 Partial Content\r\nETag: \"x\"\r\nCache-Control: max-age=60\r\nContent-Range: bytes 4096-8191/8192\r\nContent-Length: 4096\r\n\r\n",
        runs: &[(b'b', 4096)],
    },
    Burst {
        text: b"HTTP/1.1 206 Partial Content\r\nETag: \"y\"\r\nCache-Control: max-age=60\r\nContent-Range: bytes 4096-8191/8192\r\nContent-Length: 4096\r\n\r\n",
        runs: &[(b'c', 4096)],
    },
    Burst {
        text: b"HTTP/1.1 200 OK\r\nETag: \"y\"\r\nContent-Length: 10\r\n\r\n",
        runs: &[(b'd', 10)],
    },
    Burst {
        text: b"HTTP/1.1 200 OK\r\nContent-Length: 10\r\n\r\n",
        runs: &[(b'e', 10)],
    },
    Burst {
        text: b"HTTP/1.1 200 OK\r\nContent-Length: 10\r\n\r\n",
        runs: &[(b'f', 5)],
    },
    Burst {
        text: b"HTTP/1.1 200 OK\r\nContent-Length: 200000\r\n\r\n",
        runs: &[(b'g', 70_000)],
    },
    Burst {
        text: b"HTTP/1.1 404 Not Found\r\nContent-Length: 4\r\n\r\n",
        runs: &[(b'h', 4)],
    },
    Burst {
        text: b"HTTP/1.1 304 Not Modified\r\nETag: \"x\"\r\nCache-Control: max-age=60\r\n\r\n",
        runs: &[],
    },
    Burst {
        text: b"HTTP/1.1 500 Internal Server Error\r\nContent-Length: 4\r\n\r\n",
        runs: &[(b'i', 4)],
    },
    Burst {
        text: b"",
        runs: &[(b'f', 5)],
    },
    Burst {
        text: b"",
        runs: &[(b'g', 65_000)],
    },
];

/// A script of so many steps.
pub(crate) fn script(alloc: Global, dice: &mut Dice, steps: u64) -> Result<Script, OutOfMemory> {
    let mut cues = Vec::new(alloc);
    let mut now = BEGIN;
    put(Cue::Tick(now), &mut cues)?;
    for _ in 0..CLIENTS {
        put(Cue::Connect, &mut cues)?;
    }
    put_first(alloc, &mut cues)?;
    for step in 0..steps {
        put_step(alloc, dice, step, &mut now, &mut cues)?;
    }
    // What was held back may go on, and more time passes than any origin has for an answer, so that it shows who waits for nothing.
    for number in 1..=NUMBERS {
        put(Cue::Window(number, ALL), &mut cues)?;
    }
    for _ in 0..12 {
        now = now.saturating_add(30);
        put(Cue::Tick(now), &mut cues)?;
    }
    Ok(Script {
        cues,
        site: Vec::new(alloc),
    })
}

/// The front of the page is known.
fn put_first(alloc: Global, cues: &mut Vec<Cue>) -> Result<(), OutOfMemory> {
    let origin = CLIENTS.saturating_add(1);
    put(Cue::Say(1, Octets::copy(alloc, FRONT)?), cues)?;
    put(Cue::Reach(origin), cues)?;
    put(Cue::Answer(origin, sent(alloc, &KNOWN)?), cues)
}

/// Adds what a step brings. The numbers of origins rise as connections are closed.
fn put_step(
    alloc: Global,
    dice: &mut Dice,
    step: u64,
    now: &mut u64,
    cues: &mut Vec<Cue>,
) -> Result<(), OutOfMemory> {
    let client = 1_u64.saturating_add(dice.below(CLIENTS));
    let first = CLIENTS.saturating_add(1).saturating_add(step / 12);
    let origin = first.saturating_add(dice.below(4));
    match dice.below(20) {
        0..=5 => put_read(alloc, dice, client, cues),
        6..=8 => put_reached(cues),
        9..=14 => put_burst(alloc, dice, origin, cues),
        15 => {
            let room = dice.below(400);
            put(Cue::Window(client, room), cues)
        }
        16 => put(Cue::HangUp(client), cues),
        17 => put(Cue::End(origin), cues),
        _ => {
            *now = now.saturating_add(dice.below(7));
            put(Cue::Tick(*now), cues)
        }
    }
}

/// Adds a request of this client.
fn put_read(
    alloc: Global,
    dice: &mut Dice,
    number: u64,
    cues: &mut Vec<Cue>,
) -> Result<(), OutOfMemory> {
    match dice.one_of(READS) {
        None => Ok(()),
        Some(read) => put(Cue::Say(number, Octets::copy(alloc, read)?), cues),
    }
}

/// Adds what this origin sends.
fn put_burst(
    alloc: Global,
    dice: &mut Dice,
    number: u64,
    cues: &mut Vec<Cue>,
) -> Result<(), OutOfMemory> {
    let Some(burst) = dice.one_of(BURSTS) else {
        return Ok(());
    };
    put(Cue::Answer(number, sent(alloc, burst)?), cues)
}

/// All that is sent at once.
fn sent(alloc: Global, burst: &Burst) -> Result<Octets, OutOfMemory> {
    let mut bytes = Octets::copy(alloc, burst.text)?;
    for (byte, count) in burst.runs {
        let run = vec![in alloc; *byte; *count]?;
        bytes.append(run.as_slice())?;
    }
    Ok(bytes)
}
