// The lives of a seed, run.

use crate::dice::Dice;
use crate::lives::{Life, Term};
use crate::quoting::quoted;
use crate::spelling::spelled;
use pp_memworld::MemWorld;
use pp_play::boxed;
use pp_run::{Shown, demo, run};
use pp_text::OutOfMemory;
use pp_world::{Happening, Image};
use std::alloc::{AllocError, Global};

/// The lives of a seed, and what happened in them.
#[derive(Drop)]
pub struct Simulation {
    pub seed: u64,
    /// How each life was started.
    pub terms: Vec<Term>,
    world: Box<MemWorld>,
}

/// So many lives at most.
const LIVES: u64 = 3;

/// A crash by one of so many choices, and by as many that tear.
const CHOICES: u64 = 16;

/// From this choice on, a crash tears.
const FIRST_TORN: u64 = 1 << 63;

/// From this seed on, each has one life, of one page whose origins answer late.
const FIRST_LATE: u64 = 1_000_000;

/// Runs the lives of this seed.
pub fn simulate(alloc: Global, seed: u64) -> Result<Simulation, OutOfMemory> {
    let mut dice = Dice::new(seed);
    let mut terms = Vec::new(alloc);
    if FIRST_LATE <= seed {
        let life = Life::late(alloc, &mut dice)?;
        let world = first_life(alloc, life, &mut terms)?;
        return Ok(Simulation { seed, terms, world });
    }
    let lives = 1_u64.saturating_add(dice.below(LIVES));
    let life = Life::new(alloc, &mut dice, 0)?;
    let mut world = first_life(alloc, life, &mut terms)?;
    let mut begin = 0;
    for number in 1..lives {
        begin = crash_place(&mut dice, begin, log_of(&*world)?.len());
        world = next_life(alloc, &mut dice, number, &*world, begin, &mut terms)?;
    }
    Ok(Simulation { seed, terms, world })
}

/// So many lives a demo has.
const DEMO_LIVES: u64 = 5;

/// The lives of the demo of this seed, each with no words, and in none of which the outside fails.
pub fn demo_lives(alloc: Global, seed: u64) -> Result<Simulation, OutOfMemory> {
    let mut terms = Vec::new(alloc);
    for _ in 0..DEMO_LIVES {
        let words = Vec::new(alloc);
        let term = Term { words, faults: 0 };
        terms.push(term).map_err(AllocError::from)?;
    }
    let Shown { world, .. } = demo(alloc, seed)?;
    Ok(Simulation { seed, terms, world })
}

#[tactic(auto, using(pp_shelf::proofs::OpeningLemmas::fresh_first))]
fn first_life(
    alloc: Global,
    life: Life,
    terms: &mut Vec<Term>,
) -> Result<Box<MemWorld>, OutOfMemory> {
    terms.push(life.term(alloc)?).map_err(AllocError::from)?;
    let Life {
        words,
        script,
        failing,
    } = life;
    let mut world = boxed(
        alloc,
        MemWorld::new(alloc, script, Image::new(alloc), failing)?,
    )?;
    let _ = run(alloc, words.as_slice(), &mut *world);
    Ok(world)
}

/// The life after a crash of this world behind its first `at` happenings.
#[tactic(auto, using(pp_run::proofs::Fresh::fresh_crashed))]
fn next_life(
    alloc: Global,
    dice: &mut Dice,
    number: u64,
    world: &MemWorld,
    at: usize,
    terms: &mut Vec<Term>,
) -> Result<Box<MemWorld>, OutOfMemory> {
    let life = Life::new(alloc, dice, number)?;
    terms.push(life.term(alloc)?).map_err(AllocError::from)?;
    let Life {
        words,
        script,
        failing,
    } = life;
    let choice = crash_choice(dice);
    let crashed = world.crash(alloc, at, choice, script, failing)?;
    let Some(next) = crashed else {
        return Err(OutOfMemory);
    };
    let mut next = boxed(alloc, next)?;
    let _ = run(alloc, words.as_slice(), &mut *next);
    Ok(next)
}

/// What happened; the world tells it as long as there is memory.
fn log_of(world: &MemWorld) -> Result<&[Happening], OutOfMemory> {
    match world.log() {
        Some(log) => Ok(log),
        None => Err(OutOfMemory),
    }
}

/// Where a life crashes that began with the happening at `begin`, in a log of this length: behind any
/// of its happenings, and often behind the last.
fn crash_place(dice: &mut Dice, begin: usize, len: usize) -> usize {
    let past = len.saturating_sub(begin).saturating_sub(1) as u64;
    if dice.is_once_in(3) {
        return len;
    }
    begin
        .saturating_add(1)
        .saturating_add(dice.below(past) as usize)
}

/// How a crash settles what is loose or in doubt.
fn crash_choice(dice: &mut Dice) -> u64 {
    let choice = dice.below(CHOICES);
    if dice.is_once_in(2) {
        FIRST_TORN.saturating_add(choice)
    } else {
        choice
    }
}

impl Simulation {
    /// What happened, of all lives; nothing where the world could not tell it.
    pub fn log(&self) -> &[Happening] {
        self.world.log().unwrap_or(&[])
    }

    /// The lives as a transcript: how they were started, and a row of what happened.
    pub fn transcript(&self, alloc: Global) -> Result<String, OutOfMemory> {
        let mut text = String::from_str(alloc, "lives\n")?;
        for term in self.terms.as_slice() {
            put_term(alloc, term, &mut text)?;
        }
        let seed = self.seed;
        text.push_str(format!(in alloc; "row seed {seed}\n")?.as_str())?;
        for happening in self.log() {
            put_happening(alloc, happening, &mut text)?;
        }
        Ok(text)
    }
}

fn put_term(alloc: Global, term: &Term, text: &mut String) -> Result<(), OutOfMemory> {
    let faults = term.faults;
    text.push_str(format!(in alloc; "  life faults {faults} words")?.as_str())?;
    for word in term.words.as_slice() {
        let word = quoted(alloc, word.as_slice())?;
        text.push_str(format!(in alloc; " {word}")?.as_str())?;
    }
    text.push_str("\n")?;
    Ok(())
}

fn put_happening(
    alloc: Global,
    happening: &Happening,
    text: &mut String,
) -> Result<(), OutOfMemory> {
    let line = spelled(alloc, happening)?;
    text.push_str(format!(in alloc; "  {line}\n")?.as_str())?;
    Ok(())
}
