//! Prints simulated lives of the proxy as transcripts.
//!
//! A word names a seed, as `3`, or seeds that follow each other, as `3..7`; `demo:3` names the demo of a seed.
//!
//! It ends with 0, with 2 where the words have no reading, and with 3 where memory was refused.
#![tactic(auto)]

use pp_sim::{demo_lives, simulate};
use pp_text::{OutOfMemory, read_u64};
use std::process::ExitCode;
use std::{env, io};

/// The seeds that a word names.
#[derive(Clone, Copy)]
struct Seeds {
    kind: Kind,
    first: u64,
    last: u64,
}

/// Which lives are made of a seed.
#[derive(Clone, Copy)]
enum Kind {
    Simulated,
    Demo,
}

fn main(rt: HostRuntime) -> io::Result<ExitCode> {
    let mut words: Vec<String> = Vec::new(rt.alloc());
    for word in env::args(&rt)?.skip(1) {
        words.push(word)?;
    }
    for word in words.as_slice() {
        let Some(seeds) = seeds_of(word.as_bytes()) else {
            rt.eprint("usage: pp_seeds [SEED|FIRST..LAST|demo:SEED] ..\n")?;
            return Ok(ExitCode::from(2));
        };
        for seed in seeds.first..=seeds.last {
            match told(&rt, seeds.kind, seed) {
                Ok(text) => rt.print(text.as_str())?,
                Err(OutOfMemory) => {
                    rt.eprint("there is no memory\n")?;
                    return Ok(ExitCode::from(3));
                }
            }
        }
    }
    Ok(ExitCode::from(0))
}

fn told(rt: &HostRuntime, kind: Kind, seed: u64) -> Result<String, OutOfMemory> {
    let lives = match kind {
        Kind::Simulated => simulate(rt.alloc(), seed)?,
        Kind::Demo => demo_lives(rt.alloc(), seed)?,
    };
    lives.transcript(rt.alloc())
}

fn seeds_of(word: &[u8]) -> Option<Seeds> {
    if let Some(seed) = word.strip_prefix(b"demo:") {
        let seed = read_u64(seed)?;
        return Some(Seeds {
            kind: Kind::Demo,
            first: seed,
            last: seed,
        });
    }
    let (first, last) = match word.iter().position(|byte| *byte == b'.') {
        Some(at) => (word.get(..at)?, word.get(at..)?.strip_prefix(b"..")?),
        None => (word, word),
    };
    Some(Seeds {
        kind: Kind::Simulated,
        first: read_u64(first)?,
        last: read_u64(last)?,
    })
}
