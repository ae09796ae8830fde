// One pool, and the cells of one instance.
use crate::saying::{says_nothing, told};
use pp_holes::{Added, Cells};
use pp_pool::{Pins, Pool};
use pp_text::OutOfMemory;
use std::alloc::Global;
use std::marker::Model;
use std::test::Fail;

/// What is done with a pool, and what it answers.
enum Act<'a> {
    /// Whether a chunk is free for the owner's place of this index.
    Take(u32, u32, bool),
    /// So many chunks are taken by this owner.
    TakeMany(u32, u32),
    /// Two chunks are taken, and the first is used again: which is the oldest before that.
    UseAgain((u32, u32), (u32, u32), (u32, u32)),
    /// A chunk is taken, has these bytes, and is given back.
    Lend(u32, u32, &'a [u8]),
    Used(u32),
    /// The least recently used chunk that is none of these.
    Oldest(&'a [(u32, u32)], Option<(u32, u32)>),
}

fn is_met(pool: &mut Pool, act: &Act<'_>) -> bool {
    match act {
        Act::Take(owner, index, wanted) => pool.take(*owner, *index).is_some() == *wanted,
        Act::TakeMany(owner, count) => take_many(pool, *owner, *count),
        Act::UseAgain(first, second, oldest) => use_again(pool, *first, *second) == Some(*oldest),
        Act::Lend(owner, index, bytes) => lend(pool, *owner, *index, bytes),
        Act::Used(n) => pool.used() == *n,
        Act::Oldest(pins, wanted) => oldest(pool, pins) == *wanted,
    }
}

fn take_many(pool: &mut Pool, owner: u32, count: u32) -> bool {
    for index in 0..count {
        if pool.take(owner, index).is_none() {
            return false;
        }
    }
    true
}

/// The oldest chunk before the first of the two is used again.
fn use_again(pool: &mut Pool, first: (u32, u32), second: (u32, u32)) -> Option<(u32, u32)> {
    let chunk = pool.take(first.0, first.1)?;
    let _other = pool.take(second.0, second.1)?;
    let oldest = pool.oldest(&Pins::new());
    pool.touch(&chunk);
    oldest
}

fn lend(pool: &mut Pool, owner: u32, index: u32, bytes: &[u8]) -> bool {
    if bytes.len() > 4096 {
        return false;
    }
    let Some(chunk) = pool.take(owner, index) else {
        return false;
    };
    if !pool.bytes(&chunk).is_empty() {
        return false;
    }
    pool.fill(&chunk, bytes);
    let is_same = pool.bytes(&chunk) == bytes;
    pool.give(chunk);
    is_same
}

fn oldest(pool: &Pool, places: &[(u32, u32)]) -> Option<(u32, u32)> {
    let mut pins = Pins::new();
    for place in places {
        let _ = pins.try_push(*place);
    }
    pool.oldest(&pins)
}

/// Acts on a pool of 512 chunks.
struct Course<'a> {
    name: &'a str,
    acts: &'a [Act<'a>],
}

fn unlike(alloc: Global, courses: &[Course<'_>]) -> Result<String, OutOfMemory> {
    for course in courses {
        let mut pool = Pool::new(alloc, 512)?;
        for (place, act) in course.acts.iter().enumerate() {
            if !is_met(&mut pool, act) {
                return Ok(told(alloc, course.name, Some(place))?);
            }
        }
    }
    Ok(String::new(alloc))
}

/// The length of the instance: 513 chunks.
const TOTAL: u64 = 2_101_248;

/// The cells of one instance, and a pool of 512 chunks, which agree.
#[derive(Drop)]
struct Lone {
    cells: Cells,
    pool: Pool,
}

impl Model for Lone {
    ghost use Rattle.std.specs.Prelude.{◌≡◌};
    ghost use Rattle.pp_holes.specs.Cells.{Agrees, Table};

    ghost Value = { Table };

    ghost view = { λ l. l.cells };

    ghost invariant = { λ l. Agrees l.cells.owner l.cells.cells l.pool.used × (l.cells.total ≡ 2101248) };
}

impl Lone {
    fn new(alloc: Global) -> Result<Lone, OutOfMemory> {
        let cells = Cells::new(alloc, 0, TOTAL)?;
        let pool = Pool::new(alloc, 512)?;
        Ok(Lone { cells, pool })
    }

    /// What comes of these bytes at the front. None: they are too many.
    fn add(&mut self, bytes: &[u8]) -> Option<Added> {
        if bytes.len() as u64 > TOTAL {
            return None;
        }
        Some(self.cells.add(&mut self.pool, 0, bytes))
    }

    fn drop_chunk(&mut self, index: u32) -> bool {
        self.cells.drop_chunk(&mut self.pool, index);
        true
    }

    fn drop_all(&mut self) -> bool {
        self.cells.drop_all(&mut self.pool);
        true
    }

    fn piece(&self, at: u64) -> &[u8] {
        self.cells.piece(&self.pool, at)
    }
}

/// What is done with these cells, and what they answer.
enum Step {
    /// As many bytes as the instance has, from the first one on: how many join, and how many are passed over before a
    /// chunk is needed.
    AddAll(u64, u64),
    Drop(u32),
    DropAll,
    Hole(u64, (u64, u64)),
    /// Whether bytes are there at this offset.
    Has(u64, bool),
    Used(u32),
    Oldest(u32),
}

fn is_gone_on(lone: &mut Lone, bytes: &[u8], step: &Step) -> bool {
    match step {
        Step::AddAll(joined, ignored) => lone.add(bytes) == stopped(*joined, *ignored),
        Step::Drop(index) => lone.drop_chunk(*index),
        Step::DropAll => lone.drop_all(),
        Step::Hole(at, wanted) => lone.cells.next_hole(*at) == *wanted,
        Step::Has(at, wanted) => lone.piece(*at).is_empty() != *wanted,
        Step::Used(n) => lone.pool.used() == *n,
        Step::Oldest(index) => oldest(&lone.pool, &[]) == Some((0, *index)),
    }
}

fn stopped(joined: u64, ignored: u64) -> Option<Added> {
    Some(Added {
        joined,
        ignored,
        need_chunk: true,
    })
}

fn unlike_lone(alloc: Global, steps: &[Step]) -> Result<String, OutOfMemory> {
    let mut lone = Lone::new(alloc)?;
    let bytes = vec![in alloc; b'a'; 2_101_248]?;
    for (place, step) in steps.iter().enumerate() {
        if !is_gone_on(&mut lone, bytes.as_slice(), step) {
            return Ok(told(alloc, "adding stops where no chunk is free", Some(place))?);
        }
    }
    Ok(String::new(alloc))
}

const POOLS: &[Course<'static>] = &[
    Course {
        name: "a pool has no more than its size",
        acts: &[
            Act::TakeMany(7, 512),
            Act::Used(512),
            Act::Take(7, 512, false),
            Act::Used(512),
            Act::Oldest(&[], Some((7, 0))),
        ],
    },
    Course {
        name: "the oldest passes over pins and nothing else",
        acts: &[
            Act::Oldest(&[], None),
            Act::UseAgain((1, 0), (1, 1), (1, 0)),
            Act::Oldest(&[], Some((1, 1))),
            Act::Oldest(&[(1, 1)], Some((1, 0))),
            Act::Oldest(&[(1, 1), (1, 0)], None),
        ],
    },
    Course {
        name: "a chunk has what was put into it until it is given back",
        acts: &[
            Act::Lend(1, 0, b"hello"),
            Act::Used(0),
            Act::Oldest(&[], None),
        ],
    },
];

/// Adding stops where a byte needs a chunk and none is free.
const STOPPED: &[Step] = &[
    Step::AddAll(2_097_152, 0),
    Step::Oldest(0),
    Step::Drop(3),
    Step::Hole(0, (12_288, 16_384)),
    Step::Has(12_288, false),
    Step::AddAll(4096, 2_093_056),
    Step::Has(0, true),
    Step::DropAll,
    Step::Used(0),
    Step::Hole(0, (0, 2_101_248)),
];

#[test]
fn chunks_are_taken_and_given_back(rt: HostRuntime) -> Result<(), Fail> {
    says_nothing(&rt, unlike(rt.alloc(), POOLS))?;
    says_nothing(&rt, unlike_lone(rt.alloc(), STOPPED))
}
