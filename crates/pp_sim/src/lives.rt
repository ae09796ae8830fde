// How a life is started, what happens outside, and where it ends.
use crate::dice::Dice;
use crate::late;
use crate::scripts::script;
use pp_memworld::Script;
use pp_text::{Octets, OutOfMemory};
use std::alloc::{AllocError, Global};

/// A life that is to come.
#[derive(Drop)]
pub(crate) struct Life {
    /// The words behind the program's name.
    pub(crate) words: Vec<String>,
    pub(crate) script: Script,
    /// The numbers of the calls that fail, from 1.
    pub(crate) failing: Vec<u64>,
}

/// How a life is started: the words behind the program's name, and how often the outside fails in it.
#[derive(Drop)]
pub struct Term {
    pub words: Vec<Octets>,
    pub faults: u64,
}

/// A call that fails is one of the first so many.
const FIRST_CALLS: u64 = 150;

impl Life {
    /// The life of this number, from 0.
    pub(crate) fn new(alloc: Global, dice: &mut Dice, number: u64) -> Result<Life, OutOfMemory> {
        let steps = 10_u64.saturating_add(dice.below(60));
        Ok(Life {
            words: words(alloc, dice)?,
            script: script(alloc, dice, number, steps)?,
            failing: failing(alloc, dice)?,
        })
    }

    /// A life of one page, whose origins answer late.
    pub(crate) fn late(alloc: Global, dice: &mut Dice) -> Result<Life, OutOfMemory> {
        let steps = 20_u64.saturating_add(dice.below(60));
        Ok(Life {
            words: late_words(alloc, dice)?,
            script: late::script(alloc, dice, steps)?,
            failing: Vec::new(alloc),
        })
    }

    /// How it is started: its words, and how many calls of it fail at most.
    pub(crate) fn term(&self, alloc: Global) -> Result<Term, OutOfMemory> {
        let mut words = Vec::new(alloc);
        for word in self.words.as_slice() {
            words
                .push(Octets::copy(alloc, word.as_bytes())?)
                .map_err(AllocError::from)?;
        }
        Ok(Term {
            words,
            faults: self.failing.len() as u64,
        })
    }
}

/// Words that a life is started with: none mostly.
fn words(alloc: Global, dice: &mut Dice) -> Result<Vec<String>, OutOfMemory> {
    match dice.below(8) {
        0..=2 => Ok(Vec::new(alloc)),
        3 => owned(alloc, &["shareFetches=0"]),
        4 => owned(alloc, &["proxyPort=8000", "proxyName=p"]),
        5 => owned(alloc, &["diskRun=1"]),
        6 => owned(alloc, &["diskRun=2"]),
        _ => owned(alloc, &["chunkHighMark=512", "chunkLowMark=512"]),
    }
}

/// Asks stand behind slow ones where there are few connections.
fn late_words(alloc: Global, dice: &mut Dice) -> Result<Vec<String>, OutOfMemory> {
    match dice.below(3) {
        0 => Ok(Vec::new(alloc)),
        1 => owned(alloc, &["hostConnections=2", "pipelineAsks=1"]),
        _ => owned(alloc, &["hostConnections=4", "pipelineAsks=1"]),
    }
}

fn owned(alloc: Global, words: &[&str]) -> Result<Vec<String>, OutOfMemory> {
    let mut all = Vec::new(alloc);
    for word in words {
        all.push(String::from_str(alloc, word)?)
            .map_err(AllocError::from)?;
    }
    Ok(all)
}

/// None mostly, and else up to three.
fn failing(alloc: Global, dice: &mut Dice) -> Result<Vec<u64>, OutOfMemory> {
    let mut failing = Vec::new(alloc);
    if dice.is_once_in(3) {
        for _ in 0..dice.below(4) {
            let number = 1_u64.saturating_add(dice.below(FIRST_CALLS));
            failing.push(number).map_err(AllocError::from)?;
        }
    }
    Ok(failing)
}
