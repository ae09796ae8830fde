//! Plays the course of `pp_cache_exchanges` once, and says in a line what it came to.
//!
//! It is for `tools/refuse_memory`, which starts it again and again, and refuses it another allocation each time: of the proxy,
//! of the world in memory, or of the test itself. Whatever that is, its clients are said nothing wrong.
//!
//! It ends with 0, and with 1 where it came to what it may not.
#![tactic(auto)]

mod judging; // what the course came to

use judging::{Outcome, played};
use pp_text::OutOfMemory;
use std::io;
use std::process::ExitCode;

fn main(rt: HostRuntime) -> io::Result<ExitCode> {
    let outcome = match played(rt.alloc()) {
        Ok(outcome) => outcome,
        Err(OutOfMemory) => Outcome::Unplayed,
    };
    rt.print(outcome.line())?;
    Ok(match outcome {
        Outcome::Wrong => ExitCode::from(1),
        _ => ExitCode::from(0),
    })
}
