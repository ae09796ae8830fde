// Instances and a pool that agree. What a call asks for is tested before it.
ghost use Rattle.std.specs.Prelude.{◌≡◌, ◌≤◌, IfSome, true};
ghost use Rattle.pp_objects.specs.Instances.{is_there};

use crate::fields::{TIMES, are_lines, fresher};
use crate::rows::{followers, total};
use arrayvec::ArrayVec;
use pp_evict::{Victim, make_room};
use pp_objects::{Added, ObjectId, Objects, Times};
use pp_pool::{Pins, Pool};
use pp_text::{Fields, OutOfMemory};
use pp_valid::{Tag, Version};
use std::alloc::Global;
use std::marker::Model;

/// Instances are named by the order in which they were settled.
#[derive(Drop)]
pub struct Cache {
    alloc: Global,
    objects: Objects,
    pool: Pool,
    ids: ArrayVec<ObjectId, 4>,
}

impl Model for Cache {
    ghost use Rattle.pp_objects.specs.Instances.{Rows};
    ghost use Rattle.pp_objects.specs.Agreement.{AllAgree};

    ghost Value = { Rows };

    ghost view = { λ c. c.objects };

    ghost invariant = { λ c. AllAgree c.objects.instances c.pool.used };
}

impl Cache {
    /// Nothing in memory, and a pool of so many chunks.
    pub fn new(alloc: Global, chunks: u32) -> Result<Cache, OutOfMemory>
        requires least { 512 ≤ chunks }
        requires most { chunks ≤ 65536 }
    {
        let objects = Objects::new(alloc)?;
        let pool = Pool::new(alloc, chunks)?;
        Ok(Cache {
            alloc,
            objects,
            pool,
            ids: ArrayVec::new(),
        })
    }

    /// A row of this key, with this tag and so many bytes. Whether there is room for it.
    pub fn settle(&mut self, key: &[u8], tag: &[u8], length: u64) -> bool {
        let Some(tag) = Tag::read(tag) else {
            return false;
        };
        if length > 1 << 30 || self.objects.is_full() {
            return false;
        }
        let version = Version { tag, length };
        let fields = Fields::new(&[], &[]);
        match self
            .objects
            .settle(self.alloc, &mut self.pool, key, &version, &fields, TIMES)
        {
            Ok(id) => self.ids.try_push(id).is_ok(),
            Err(OutOfMemory) => false,
        }
    }

    pub fn retire(&mut self, key: &[u8]) -> bool {
        self.objects.retire(&mut self.pool, key);
        true
    }

    pub fn mark(&mut self, i: usize) -> bool {
        let Some(id) = self.there(i) else {
            return false;
        };
        self.objects.mark(id);
        true
    }

    /// By a response with `cache-control: max-age=5`, that came in this second. Whether there is room for its field.
    pub fn refresh(&mut self, i: usize, second: u64) -> bool {
        let Some(id) = self.there(i) else {
            return false;
        };
        let fields = fresher();
        let times = Times {
            request: second,
            response: second,
            ..TIMES
        };
        if !self.objects.has_room(id, &fields, times) {
            return false;
        }
        self.objects.refresh(id, &fields, times);
        true
    }

    /// Whether just these fields are kept, of a response that came in this second.
    pub fn shows(&self, i: usize, lines: &[(&[u8], &[u8])], second: u64) -> bool {
        let Some(id) = self.id(i) else {
            return false;
        };
        match self.objects.row(id) {
            Some(row) => row.times.response == second && are_lines(&row.fields, lines),
            None => false,
        }
    }

    pub fn follow(&mut self, i: usize) -> bool {
        let Some(id) = self.id(i) else {
            return false;
        };
        let Some(followers) = followers(&self.objects, id) else {
            return false;
        };
        if followers >= 256 {
            return false;
        }
        self.objects.follow(id);
        true
    }

    pub fn leave(&mut self, i: usize) -> bool {
        let Some(id) = self.id(i) else {
            return false;
        };
        let Some(followers) = followers(&self.objects, id) else {
            return false;
        };
        if followers == 0 {
            return false;
        }
        self.objects.leave(&mut self.pool, id);
        true
    }

    pub fn forget(&mut self, i: usize) -> bool {
        let Some(id) = self.id(i) else {
            return false;
        };
        let Some(followers) = followers(&self.objects, id) else {
            return false;
        };
        if followers > 0 {
            return false;
        }
        self.objects.forget(&mut self.pool, id);
        true
    }

    /// What comes of bytes from this offset on.
    pub fn add(&mut self, i: usize, at: u64, bytes: &[u8]) -> Option<Added> {
        let id = self.id(i)?;
        let total = total(&self.objects, id)?;
        let end = at.checked_add(bytes.len() as u64)?;
        if end > total {
            return None;
        }
        Some(self.objects.add(&mut self.pool, id, at, bytes))
    }

    pub fn drop_chunk(&mut self, i: usize, index: u32) -> bool {
        let Some(id) = self.there(i) else {
            return false;
        };
        self.objects.drop_chunk(&mut self.pool, id, index);
        true
    }

    /// Whether the chunk is in memory, and used now.
    pub fn touch(&mut self, i: usize, index: u32) -> bool {
        let Some(id) = self.there(i) else {
            return false;
        };
        if self
            .objects
            .piece(&self.pool, id, u64::from(index) * 4096)
            .is_empty()
        {
            return false;
        }
        self.objects.touch(&mut self.pool, id, index);
        true
    }

    pub fn piece(&self, i: usize, at: u64) -> Option<&[u8]> {
        let id = self.there(i)?;
        Some(self.objects.piece(&self.pool, id, at))
    }

    pub fn next_hole(&self, i: usize, at: u64) -> Option<(u64, u64)> {
        let id = self.there(i)?;
        Some(self.objects.next_hole(id, at))
    }

    pub fn is_gone(&self, i: usize) -> bool {
        match self.id(i) {
            Some(id) => self.objects.row(id).is_none(),
            None => false,
        }
    }

    /// Whether the current row of the key is this one.
    pub fn is_current(&self, key: &[u8], wanted: Option<usize>) -> bool {
        self.is_row(self.objects.current(key), wanted)
    }

    /// Whether the idle row is this one, where these are busy.
    pub fn is_idle(&self, busy: &[usize], wanted: Option<usize>) -> bool {
        let mut others = ArrayVec::new();
        for i in busy {
            match self.id(*i) {
                Some(id) if others.try_push(id).is_ok() => {}
                Some(_) | None => return false,
            }
        }
        self.is_row(self.objects.idle_row(&others), wanted)
    }

    pub fn rows(&self) -> u32 {
        self.objects.rows()
    }

    pub fn used(&self) -> u32 {
        self.pool.used()
    }

    /// Whether this chunk is the least recently used one.
    pub fn is_oldest(&self, i: usize, index: u32) -> bool {
        match self.id(i) {
            Some(id) => self.pool.oldest(&Pins::new()) == Some((id.slot, index)),
            None => false,
        }
    }

    /// Whether this is the victim, where that one is pinned and so many chunks may be used.
    pub fn is_victim(
        &mut self,
        pin: (usize, u32),
        floor: u32,
        wanted: Option<(usize, u32)>,
    ) -> bool {
        let Some(pins) = self.pinned(pin) else {
            return false;
        };
        match (
            make_room(&mut self.objects, &mut self.pool, &pins, floor),
            wanted,
        ) {
            (Some(Victim { id, index }), Some((i, chunk))) => self.id(i) == Some(id)
                && index == chunk,
            (None, None) => true,
            (Some(_), None) | (None, Some(_)) => false,
        }
    }

    /// How many victims there are, one after the other, until so many chunks are used.
    pub fn victims(&mut self, pin: (usize, u32), floor: u32) -> Option<u32> {
        let pins = self.pinned(pin)?;
        for count in 0..4096 {
            if make_room(&mut self.objects, &mut self.pool, &pins, floor).is_none() {
                return Some(count);
            }
        }
        None
    }

    fn pinned(&self, (i, index): (usize, u32)) -> Option<Pins> {
        let id = self.id(i)?;
        let mut pins = Pins::new();
        pins.try_push((id.slot, index)).ok()?;
        Some(pins)
    }

    fn is_row(&self, row: Option<ObjectId>, wanted: Option<usize>) -> bool {
        match wanted {
            Some(i) => row.is_some() && row == self.id(i),
            None => row.is_none(),
        }
    }

    fn id(&self, i: usize) -> Option<ObjectId> {
        self.ids.get(i).copied()
    }

    fn there(&self, i: usize) -> Option<ObjectId>
        ensures { IfSome result (λ id. is_there id self.now.instances ≡ true) }
    {
        let id = self.id(i)?;
        if self.objects.row(id).is_some() {
            Some(id)
        } else {
            None
        }
    }
}
