// A small disk: two files in memory, a note of each call that changes one, and one call that fails.
ghost use Rattle.std.specs.Prelude.{◌≡◌, ◌≤◌, None, OnErr, OnOk};
ghost use Rattle.pp_world.specs.Log.{Rises};

use arrayvec::ArrayVec;
use pp_world::{Disk, DiskFault, Logged, Name, NamesFault};
use std::alloc::Global;

/// The names of the two files: that of `http://h/a`, and that of `http://h/b`.
pub(crate) const NAMES: [Name; 2] = [
    *b"2ce7276502725c281e6d5ae4e55aed55",
    *b"9eb7218839b91c098ab0e2d8c080c379",
];

/// A call that changes a file: where, how many bytes, and the last of them.
#[derive(Clone, Copy, Debug, Default, PartialEq, Eq)]
pub(crate) enum Step {
    Write(u64, usize, Option<u8>),
    #[default]
    Sync,
}

/// A call of this kind, on this file, is to fail.
#[derive(Clone, Copy, Debug, PartialEq, Eq)]
pub(crate) enum Failing {
    Nothing,
    Names,
    Read(Name),
    Write(Name),
    Sync(Name),
}

/// A disk that tells no log.
#[derive(Drop)]
pub(crate) struct Folder {
    pub(crate) one: Vec<u8>,
    pub(crate) two: Vec<u8>,
    pub(crate) steps: ArrayVec<Step, 16>,
    pub(crate) failing: Failing,
    faults: u64,
}

impl Logged for Folder {
    ghost log = { λ d. None };

    ghost faults = { λ d. d.faults };

    ghost top = { λ d. 0 };
}

impl Folder {
    pub(crate) fn new(one: Vec<u8>, two: Vec<u8>) -> Folder {
        Folder {
            one,
            two,
            steps: ArrayVec::new(),
            failing: Failing::Nothing,
            faults: 0,
        }
    }

    fn file(&self, name: &Name) -> &[u8] {
        if *name == NAMES[0] {
            self.one.as_slice()
        } else {
            self.two.as_slice()
        }
    }

    /// Fails where this is what is to fail.
    fn check(&mut self, is_failing: bool) -> Result<(), DiskFault>
        ensures same { OnOk result (self.new.faults ≡ self.old.faults) }
        ensures faults { self.old.faults ≤ self.new.faults }
        ensures cause { OnErr result (Rises None self.old.faults self.new.faults) }
    {
        if is_failing {
            self.faults = self.faults.saturating_add(1);
            return Err(DiskFault);
        }
        Ok(())
    }
}

/// Writes these bytes over a file.
fn write_over(file: &mut Vec<u8>, at: usize, bytes: &[u8]) {
    let from = at.min(file.len());
    for (place, byte) in file[from..].iter_mut().zip(bytes) {
        *place = *byte;
    }
}

impl Disk for Folder {
    fn root(&mut self, _folder: &[u8]) {}

    fn names(&mut self, alloc: Global) -> Result<Vec<Name>, NamesFault> {
        let failing = self.failing;
        if self.check(failing == Failing::Names).is_err() {
            return Err(NamesFault::Disk);
        }
        match Vec::from_array(alloc, NAMES) {
            Ok(names) => Ok(names),
            Err(_) => Err(NamesFault::OutOfMemory),
        }
    }

    fn length(&mut self, name: &Name) -> Result<u64, DiskFault> {
        Ok(self.file(name).len() as u64)
    }

    fn read(&mut self, name: &Name, at: u64, buf: &mut [u8]) -> Result<usize, DiskFault> {
        let failing = self.failing;
        self.check(failing == Failing::Read(*name))?;
        let file = self.file(name);
        let from = (at as usize).min(file.len());
        let count = buf.len().min(file.len() - from);
        buf[..count].copy_from_slice(&file[from..from + count]);
        Ok(count)
    }

    fn draft(&mut self, _bytes: &[u8]) -> Result<(), DiskFault> {
        Ok(())
    }

    fn sync_draft(&mut self) -> Result<(), DiskFault> {
        Ok(())
    }

    fn publish(&mut self, _name: &Name) -> Result<(), DiskFault> {
        Ok(())
    }

    fn write(&mut self, name: &Name, at: u64, bytes: &[u8]) -> Result<(), DiskFault> {
        let failing = self.failing;
        self.check(failing == Failing::Write(*name))?;
        let _ = self
            .steps
            .try_push(Step::Write(at, bytes.len(), bytes.last().copied()));
        if *name == NAMES[0] {
            write_over(&mut self.one, at as usize, bytes);
        } else {
            write_over(&mut self.two, at as usize, bytes);
        }
        Ok(())
    }

    fn sync(&mut self, name: &Name) -> Result<(), DiskFault> {
        let failing = self.failing;
        self.check(failing == Failing::Sync(*name))?;
        let _ = self.steps.try_push(Step::Sync);
        Ok(())
    }

    fn remove(&mut self, _name: &Name) -> Result<(), DiskFault> {
        Ok(())
    }
}
