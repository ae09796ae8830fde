// A store over a disk in memory, from its beginning to its crash.
ghost use Rattle.std.specs.Prelude.{IfOk};
ghost use Rattle.pp_world.specs.Log.{Told};
ghost use Rattle.pp_memworld.specs.MemWorld.{told_log};
ghost use Rattle.pp_memworld.specs.Slots.{AreListed};
ghost use Rattle.pp_store.specs.Held.{Holds};
ghost use Rattle.pp_lives.specs.Lives.{HasWoken, any_byte};

use crate::given::keep_in;
use pp_memworld::{MemWorld, Script};
use pp_recover::{RecoverFault, open};
use pp_store::{KeepFault, LoadFault, Store};
use pp_text::OutOfMemory;
use pp_world::{Disk, DiskFault, Happening, Image, Name};
use std::alloc::Global;
use std::marker::Model;

/// A disk in memory on which a life has begun, and nothing has happened since. Contracts see its log.
#[derive(Drop)]
pub struct Morning {
    world: Box<MemWorld>,
}

impl Model for Morning {
    ghost use Rattle.std.specs.Prelude.{Option};
    ghost use Rattle.pp_world.specs.Log.{Log, Told};
    ghost use Rattle.pp_memworld.specs.MemWorld.{told_log};
    ghost use Rattle.pp_lives.specs.Lives.{HasWoken};

    ghost Value = { Option Log };

    ghost view = { λ morning. told_log morning.world.value };

    ghost invariant = { λ morning. Told (told_log morning.world.value) HasWoken };
}

/// What came of opening the folder.
#[derive(Drop)]
pub enum Opened {
    Life(Life),
    /// It was not opened. The disk is as it was left.
    Refused(RecoverFault, Box<MemWorld>),
}

impl Morning {
    /// The first life, over a folder with these files. The calls of these numbers fail, counted from 1.
    pub fn over(alloc: Global, image: Image, failing: &[u64]) -> Result<Morning, OutOfMemory>
        requires listed { AreListed image }
    {
        let failing = Vec::from_slice(alloc, failing)?;
        let made = MemWorld::new(alloc, no_script(alloc), image, failing)?;
        match Box::new(alloc, made) {
            Ok(world) => Ok(Morning { world }),
            Err(_) => Err(OutOfMemory),
        }
    }

    /// The next life over a disk, where this one crashes behind its first `at` happenings. `None` where
    /// there are not so many.
    fn behind(
        world: &MemWorld,
        alloc: Global,
        at: usize,
        choice: u64,
    ) -> Result<Option<Morning>, OutOfMemory> {
        let next = world.crash(alloc, at, choice, no_script(alloc), Vec::new(alloc))?;
        match next {
            Some(world) => match Box::new(alloc, world) {
                Ok(world) => Ok(Some(Morning { world })),
                Err(_) => Err(OutOfMemory),
            },
            None => Ok(None),
        }
    }

    /// The folder is rooted and opened.
    pub fn open(self, alloc: Global) -> Opened {
        let mut world = self.world;
        let begun = world.log().unwrap_or(&[]).len().saturating_sub(1);
        match open_folder(alloc, &mut world) {
            Ok(store) => match Box::new(alloc, store) {
                Ok(store) => {
                    Opened::Life(Life {
                        begun,
                        world,
                        store,
                    })
                }
                Err(_) => Opened::Refused(RecoverFault::OutOfMemory, world),
            },
            Err(fault) => Opened::Refused(fault, world),
        }
    }
}

/// Roots the folder of a life that has just begun, and opens it.
fn open_folder(alloc: Global, world: &mut MemWorld) -> Result<Store, RecoverFault>
    requires woken { Told (told_log world.old) HasWoken }
    ensures holds { IfOk result (λ store. Told (told_log world.new) (Holds any_byte store)) }
{
    world.root(b"cache");
    open(alloc, world)
}

/// A disk in memory, and the store over it. What the store keeps stands on the disk.
#[derive(Drop)]
pub struct Life {
    /// How many happenings there were before this life.
    begun: usize,
    world: Box<MemWorld>,
    store: Box<Store>,
}

impl Model for Life {
    ghost use Rattle.pp_world.specs.Log.{Told};
    ghost use Rattle.pp_memworld.specs.MemWorld.{told_log};
    ghost use Rattle.pp_store.specs.Held.{Holds};
    ghost use Rattle.pp_store.specs.Kept.{KeptMap};
    ghost use Rattle.pp_lives.specs.Lives.{any_byte};

    ghost Value = { KeptMap };

    ghost view = { λ life. life.store.value };

    ghost invariant = { λ life. Told (told_log life.world.value) (Holds any_byte life.store.value) };
}

impl Life {
    /// The next life, where this one crashes behind the first `at` happenings of all lives. `None` where
    /// there are not so many, or its folder is not opened.
    pub fn next(&self, alloc: Global, at: usize, choice: u64) -> Result<Option<Life>, OutOfMemory> {
        let Some(morning) = Morning::behind(&self.world, alloc, at, choice)? else {
            return Ok(None);
        };
        match morning.open(alloc) {
            Opened::Life(life) => Ok(Some(life)),
            Opened::Refused(_, _) => Ok(None),
        }
    }

    /// What happened so far, in all lives.
    pub fn log(&self) -> &[Happening] {
        self.world.log().unwrap_or(&[])
    }

    /// The happenings of this life, from its beginning on.
    pub fn own_log(&self) -> &[Happening] {
        self.log().get(self.begun..).unwrap_or(&[])
    }

    /// The file of a name, among those that this life woke to.
    pub fn file(&self, name: &Name) -> Option<&[u8]> {
        match self.own_log().first()? {
            Happening::Woke(image) => Some(image.get(name)?.as_slice()),
            _ => None,
        }
    }

    pub fn store(&self) -> &Store {
        &self.store
    }

    /// How many bytes of the body of a key are kept.
    pub fn extent(&self, key: &[u8]) -> Option<u64> {
        Some(self.store.kept(key)?.extent)
    }

    /// Keeps the entry of a key with these first bytes of a body of so many. `None` where it may not be
    /// asked for.
    pub fn keep(
        &mut self,
        alloc: Global,
        key: &[u8],
        length: u64,
        front: &[u8],
    ) -> Option<Result<(), KeepFault>> {
        keep_in(&mut self.store, alloc, &mut *self.world, key, length, front)
    }

    /// Keeps more of the body of a key. `None` where it may not be asked for.
    pub fn extend(&mut self, key: &[u8], bytes: &[u8]) -> Option<Result<u64, DiskFault>> {
        let row = self.store.kept(key)?;
        let extent = row.extent + bytes.len() as u64;
        let is_whole = extent == row.version.length
            || (extent < row.version.length && extent % 4096 == 0);
        if bytes.is_empty() || bytes.len() > 262_144 || !is_whole {
            return None;
        }
        Some(self.store.extend(&mut *self.world, key, bytes))
    }

    /// Loads a chunk of the body of a key. `None` where it may not be asked for.
    pub fn load(
        &mut self,
        key: &[u8],
        index: u32,
        out: &mut [u8; 4096],
    ) -> Option<Result<usize, LoadFault>> {
        let row = self.store.kept(key)?;
        if 4096 * u64::from(index) >= row.extent {
            return None;
        }
        Some(self.store.load(&mut *self.world, key, index, out))
    }

    /// Keeps a key no more. `None` where it is not kept.
    pub fn withdraw(&mut self, key: &[u8]) -> Option<Result<(), DiskFault>> {
        self.store.kept(key)?;
        Some(self.store.withdraw(&mut *self.world, key))
    }
}

fn no_script(alloc: Global) -> Script {
    Script {
        cues: Vec::new(alloc),
        site: Vec::new(alloc),
    }
}
