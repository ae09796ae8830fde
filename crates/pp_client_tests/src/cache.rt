// Instances and a pool that agree, and the row that a course has. What a call asks for is tested before it.
ghost use Rattle.std.specs.Prelude.{◌≡◌, IfSome, true};
ghost use Rattle.pp_objects.specs.Instances.{is_there, total_at};

use pp_objects::{ObjectId, Objects, Times};
use pp_pool::Pool;
use pp_text::{Fields, OutOfMemory};
use pp_valid::{Tag, Version};
use std::alloc::Global;
use std::marker::Model;

const TIMES: Times = Times {
    request: 784111777,
    response: 784111777,
    initial: 0,
    may_guess: true,
};

#[derive(Drop)]
pub struct Cache {
    alloc: Global,
    pub objects: Objects,
    pub pool: Pool,
    /// The row that was settled last.
    pub row: Option<ObjectId>,
}

impl Model for Cache {
    ghost use Rattle.pp_objects.specs.Instances.{Rows};
    ghost use Rattle.pp_objects.specs.Agreement.{AllAgree};

    ghost Value = { Rows };

    ghost view = { λ c. c.objects };

    ghost invariant = { λ c. AllAgree c.objects.instances c.pool.used };
}

impl Cache {
    pub fn new(alloc: Global) -> Result<Cache, OutOfMemory> {
        let objects = Objects::new(alloc)?;
        let pool = Pool::new(alloc, 512)?;
        Ok(Cache {
            alloc,
            objects,
            pool,
            row: None,
        })
    }

    /// A row of so many bytes, none of them in memory. Whether there is room for it.
    pub fn settle(&mut self, length: u64) -> bool {
        let Some(tag) = Tag::read(b"\"x\"") else {
            return false;
        };
        if length > 1 << 30 || self.objects.is_full() {
            return false;
        }
        let version = Version { tag, length };
        let fields = Fields::new(&[], &[]);
        match self.objects.settle(
            self.alloc,
            &mut self.pool,
            b"http://h/a",
            &version,
            &fields,
            TIMES,
        ) {
            Ok(id) => {
                self.row = Some(id);
                true
            }
            Err(OutOfMemory) => false,
        }
    }

    /// Bytes of the row join. Whether they are within it, and all join.
    pub fn join(&mut self, at: u64, bytes: &[u8]) -> bool {
        let Some(id) = self.row else {
            return false;
        };
        let Some(total) = total(&self.objects, id) else {
            return false;
        };
        let Some(end) = at.checked_add(bytes.len() as u64) else {
            return false;
        };
        if end > total {
            return false;
        }
        let added = self.objects.add(&mut self.pool, id, at, bytes);
        added.joined == bytes.len() as u64
    }
}

fn total(objects: &Objects, id: ObjectId) -> Option<u64>
    ensures there { IfSome result (λ n. is_there id objects.now.instances ≡ true) }
    ensures total { IfSome result (λ n. n ≡ total_at id.slot objects.now.instances) }
{
    Some(objects.row(id)?.version.length)
}
