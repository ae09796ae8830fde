//! A forward proxy for HTTP/1.1.
//!
//! What its words mean, where it listens, and what it prints where it ends, is for `pp_run`;
//! what it does with a client is for `pp_proxy`, over the real world of `pp_net`.
#![tactic(auto)]

use pp_net::{NetFault, NetWorld};
use pp_run::{Exit, NO_MEMORY_LINE, USAGE_LINE, run};
use std::io::ErrorKind;
use std::process::ExitCode;
use std::{env, io};

/// The status where the system gave no poller.
const NO_POLLER: u8 = 7;

fn main(rt: HostRuntime) -> io::Result<ExitCode> {
    match words_of(&rt) {
        Ok(words) => serve(rt, words.as_slice()),
        // A word that is no text has no reading.
        Err(error) if error.kind() == ErrorKind::InvalidData => {
            end(&rt, USAGE_LINE, Exit::Usage.status())
        }
        Err(_) => end(&rt, NO_MEMORY_LINE, Exit::NoMemory.status()),
    }
}

/// The words after the program's name.
fn words_of(rt: &HostRuntime) -> io::Result<Vec<String>> {
    let mut words: Vec<String> = Vec::new(rt.alloc());
    for word in env::args(rt)?.skip(1) {
        words.push(word)?;
    }
    Ok(words)
}

fn serve(rt: HostRuntime, words: &[String]) -> io::Result<ExitCode> {
    let alloc = rt.alloc();
    match NetWorld::new(rt.clone()?) {
        Ok(mut world) => {
            let exit = run(alloc, words, &mut world);
            world.end();
            Ok(ExitCode::from(exit.status()))
        }
        Err(NetFault::NoPoller) => end(&rt, "polipo: no poller\n", NO_POLLER),
        Err(NetFault::OutOfMemory) => end(&rt, NO_MEMORY_LINE, Exit::NoMemory.status()),
    }
}

/// Prints a line, and ends with that status.
fn end(rt: &HostRuntime, line: &str, status: u8) -> io::Result<ExitCode> {
    rt.eprint(line)?;
    Ok(ExitCode::from(status))
}
