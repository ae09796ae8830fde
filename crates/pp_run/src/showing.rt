// Five lives over a world in memory.
ghost use Rattle.std.specs.Prelude.{◌≡◌, ◌<◌, Some, IfOk, option_map};
ghost use Rattle.pp_demo.specs.Summary.{summary_of};
ghost use Rattle.pp_memworld.specs.MemWorld.{told_log};
ghost use Rattle.pp_recover.specs.Opening.{IsFresh};
ghost use Rattle.pp_world.specs.Files.{Files};
ghost use Rattle.pp_world.specs.Log.{Told};

use crate::Exit;
use crate::serving::open;
use pp_conf::Conf;
use pp_demo::{Summary, crash_place, demo_crash, demo_script, summary_of};
use pp_memworld::MemWorld;
use pp_text::OutOfMemory;
use pp_world::{Happening, Image};
use std::alloc::Global;

/// So many lives there are, each but the first behind a crash.
const LIVES: u32 = 5;

/// What came of the lives of a demo.
#[derive(Drop)]
pub struct Shown {
    /// The world behind the last. It tells the log of all.
    pub world: Box<MemWorld>,
    pub summary: Summary,
}

/// Serves in the five lives of the demo of this seed, with the settings of no words, over an empty folder.
pub fn demo(alloc: Global, seed: u64) -> Result<Shown, OutOfMemory>
    ensures { IfOk result (λ d. option_map summary_of (told_log d.world.value) ≡ Some d.summary) }
{
    let Ok(conf) = Conf::plain(alloc) else {
        return Err(OutOfMemory);
    };
    let mut world = first_life(alloc, seed, &conf)?;
    for life in 1..LIVES {
        world = next_life(alloc, seed, life, &conf, &*world)?;
    }
    let summary = summary_of(log_of(&*world)?);
    Ok(Shown { world, summary })
}

#[tactic(auto, using(pp_shelf::proofs::OpeningLemmas::fresh_first))]
fn first_life(alloc: Global, seed: u64, conf: &Conf) -> Result<Box<MemWorld>, OutOfMemory> {
    let script = demo_script(alloc, seed, 0)?;
    let mut world = boxed(
        alloc,
        MemWorld::new(alloc, script, Image::new(alloc), Vec::new(alloc))?,
    )?;
    live(alloc, conf, &mut *world)?;
    Ok(world)
}

/// The life of this number, behind a crash of the one before.
#[tactic(auto, using(crate::proofs::Fresh::fresh_crashed))]
fn next_life(
    alloc: Global,
    seed: u64,
    life: u32,
    conf: &Conf,
    before: &MemWorld,
) -> Result<Box<MemWorld>, OutOfMemory>
    requires { 0 < life }
{
    let script = demo_script(alloc, seed, life)?;
    let (lost, choice) = demo_crash(seed, life - 1);
    let at = crash_place(log_of(before)?, lost);
    let crashed = before.crash(alloc, at, choice, script, Vec::new(alloc))?;
    let Some(next) = crashed else {
        return Err(OutOfMemory);
    };
    let mut world = boxed(alloc, next)?;
    live(alloc, conf, &mut *world)?;
    Ok(world)
}

/// Serves to the end of the world's script. No exit comes but that it served, or that memory was refused: a world in memory fails only where it is
/// told to, and those of the demo are told nothing (tested, and not proved).
fn live(alloc: Global, conf: &Conf, world: &mut MemWorld) -> Result<(), OutOfMemory>
    requires { Told (told_log world.old) (λ l. (files : Files) × IsFresh files l) }
{
    match open(alloc, conf, world) {
        Exit::NoMemory => Err(OutOfMemory),
        Exit::Served
        | Exit::ServedAstray
        | Exit::Usage
        | Exit::NoDisk
        | Exit::NoListener
        | Exit::NoConfig => Ok(()),
    }
}

/// A world of its own place, so that whoever lets go of it lets go of one thing.
fn boxed(alloc: Global, world: MemWorld) -> Result<Box<MemWorld>, OutOfMemory>
    ensures { IfOk result (λ b. b.value ≡ world) }
{
    Box::new(alloc, world).map_err(|_| OutOfMemory)
}

/// What happened; the world tells it as long as there is memory.
fn log_of(world: &MemWorld) -> Result<&[Happening], OutOfMemory>
    ensures { IfOk result (λ log. told_log world.now ≡ Some log.now) }
{
    match world.log() {
        Some(log) => Ok(log),
        None => Err(OutOfMemory),
    }
}
