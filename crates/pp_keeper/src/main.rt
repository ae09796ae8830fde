//! Keeps bodies of a known pattern in a folder: for the test of what outlives a kill, and for the benchmark.
//!
//! `fill FOLDER COUNT LENGTH [CHUNKS]` keeps so many entries of so many bytes, and seals so many chunks at
//! once, 1 to 64, by default 1; where these are more than one, a body that is no longer is published whole. It
//! prints `kept NUMBER EXTENT` for each extent that is acknowledged, and goes on where an earlier run stopped.
//! `list FOLDER COUNT` prints `found NUMBER EXTENT`, `wrong NUMBER CHUNK` or `none NUMBER` of so many entries.
//! `seek FOLDER COUNT` asks for each of so many entries 100 times, and prints how often one was found.
//!
//! It ends with 0 where all was done, with 2 where the words have no reading, with 3 where memory was refused,
//! with 4 where the folder cannot be used, with 5 where an entry was not kept or not read, and with 6 where the system
//! gave no poller or nothing can be printed.
#![tactic(auto)]

mod body; // the bodies of the entries, and their keys
mod filling; // entries are kept
mod listing; // entries are looked at
mod stop; // why the program ends early
mod words; // what the words ask for

use crate::body::{BODY_CHUNKS, CHUNK_LEN};
use crate::filling::{ROOM_LEN, extend, keep};
use crate::listing::{extent_of, is_right};
use crate::stop::Stop;
use crate::words::{Filling, Task, task_of};
use pp_net::NetWorld;
use pp_recover::open;
use pp_store::Store;
use pp_world::Disk;
use std::process::ExitCode;
use std::{env, io};

/// How often each entry is asked for.
const TIMES: u32 = 100;

fn main(rt: HostRuntime) -> io::Result<ExitCode> {
    let mut words: Vec<String> = Vec::new(rt.alloc());
    for word in env::args(&rt)?.skip(1) {
        words.push(word)?;
    }
    let Some(task) = task_of(words.as_slice()) else {
        rt.eprint(
            "usage: fill FOLDER COUNT LENGTH [CHUNKS] | list FOLDER COUNT | seek FOLDER COUNT\n",
        )?;
        return Ok(ExitCode::from(2));
    };
    match carry_out(&rt, &task) {
        Ok(()) => Ok(ExitCode::from(0)),
        Err(stop) => {
            rt.eprint(stop.line())?;
            Ok(ExitCode::from(stop.status()))
        }
    }
}

/// Opens the folder, and does with it what is asked for.
fn carry_out(rt: &HostRuntime, task: &Task<'_>) -> Result<(), Stop> {
    let mut world = NetWorld::new(rt.clone()?)?;
    world.root(task.folder());
    let mut store = open(rt.alloc(), &mut world)?;
    match task {
        Task::Fill(filling) => fill(rt, &mut store, &mut world, filling),
        Task::List(listing) => list(rt, &mut store, &mut world, listing.count),
        Task::Seek(listing) => seek(rt, &store, listing.count),
    }
}

/// Keeps all entries, each to the end of its body.
fn fill(
    rt: &HostRuntime,
    store: &mut Store,
    world: &mut NetWorld<HostRuntime>,
    filling: &Filling<'_>,
) -> Result<(), Stop> {
    let mut room = [0; ROOM_LEN];
    let (length, chunks) = (filling.length, filling.chunks);
    for number in 0..filling.count {
        let extent = keep(rt.alloc(), store, world, number, length, chunks, &mut room)?;
        if extent > 0 {
            println!(rt; "kept {number} {extent}")?;
        }
        for _run in 0..BODY_CHUNKS {
            match extend(store, world, number, chunks, &mut room)? {
                Some(extent) => println!(rt; "kept {number} {extent}")?,
                None => break,
            }
        }
    }
    Ok(())
}

/// Tells of so many entries.
fn list(
    rt: &HostRuntime,
    store: &mut Store,
    world: &mut NetWorld<HostRuntime>,
    count: u64,
) -> Result<(), Stop> {
    for number in 0..count {
        list_one(rt, store, world, number)?;
    }
    Ok(())
}

fn list_one(
    rt: &HostRuntime,
    store: &mut Store,
    world: &mut NetWorld<HostRuntime>,
    number: u64,
) -> Result<(), Stop> {
    let Some(extent) = extent_of(store, number) else {
        println!(rt; "none {number}")?;
        return Ok(());
    };
    let mut room = [0; 4096];
    for index in 0..BODY_CHUNKS {
        if CHUNK_LEN * u64::from(index) >= extent {
            break;
        }
        if !is_right(store, world, number, index, &mut room)? {
            println!(rt; "wrong {number} {index}")?;
            return Ok(());
        }
    }
    println!(rt; "found {number} {extent}")?;
    Ok(())
}

/// Asks for each of so many entries so often, and tells how often one was found.
fn seek(rt: &HostRuntime, store: &Store, count: u64) -> Result<(), Stop> {
    let mut found: u64 = 0;
    for _time in 0..TIMES {
        for number in 0..count {
            if extent_of(store, number).is_some() {
                found = found.wrapping_add(1);
            }
        }
    }
    println!(rt; "found {found}")?;
    Ok(())
}
