// The calls of `Disk` over real files.
ghost use Rattle.std.specs.Prelude.{◌≡◌, ◌≤◌, None, Ok, IfOk, OnErr};
ghost use Rattle.pp_world.specs.Log.{Rises};

use crate::folder::Folder;
use crate::net_world::NetWorld;
use pp_world::{Disk, DiskFault, Name, NamesFault};
use std::alloc::Global;
use std::fs::File;
use std::io;
use std::net::Net;
use std::rt::{Files, Runtime};

impl<R: Runtime + AllocGlobal + Net> NetWorld<R> {
    // The answer of the system, or a fault, which is counted.
    fn or_fault<T>(&mut self, answer: io::Result<T>) -> Result<T, DiskFault>
        ensures value { IfOk result (λ value. answer ≡ Ok value) }
        ensures faults { self.old.faults ≤ self.new.faults }
        ensures cause { OnErr result (Rises None self.old.faults self.new.faults) }
        ensures top { self.new.top ≡ self.old.top }
    {
        match answer {
            Ok(value) => Ok(value),
            Err(_) => {
                self.fault();
                Err(DiskFault)
            }
        }
    }
}

impl<R: Runtime + AllocGlobal + Net + Files<File = File>> Disk for NetWorld<R> {
    /// Without this call, or where it fails, or another program has the folder, every other call on the
    /// disk fails.
    fn root(&mut self, folder: &[u8]) {
        // An earlier one is given back first.
        self.folder = Folder::Closed;
        let Ok(folder) = Folder::open(&self.rt, folder) else {
            self.fault();
            return;
        };
        self.folder = folder;
    }

    fn names(&mut self, alloc: Global) -> Result<Vec<Name>, NamesFault> {
        let names = self.folder.names(&self.rt, alloc);
        if let Err(NamesFault::Disk) = names {
            self.fault();
        }
        names
    }

    fn length(&mut self, name: &Name) -> Result<u64, DiskFault> {
        let length = self.folder.length(&self.rt, name);
        self.or_fault(length)
    }

    fn read(&mut self, name: &Name, at: u64, buf: &mut [u8]) -> Result<usize, DiskFault> {
        let taken = self.folder.read(&self.rt, name, at, buf);
        self.or_fault(taken)
    }

    fn draft(&mut self, bytes: &[u8]) -> Result<(), DiskFault> {
        let done = self.folder.draft(&self.rt, bytes);
        self.or_fault(done)
    }

    fn sync_draft(&mut self) -> Result<(), DiskFault> {
        let done = self.folder.sync_draft();
        self.or_fault(done)
    }

    fn publish(&mut self, name: &Name) -> Result<(), DiskFault> {
        let done = self.folder.publish(&self.rt, name);
        self.or_fault(done)
    }

    fn write(&mut self, name: &Name, at: u64, bytes: &[u8]) -> Result<(), DiskFault> {
        let done = self.folder.write(&self.rt, name, at, bytes);
        self.or_fault(done)
    }

    fn sync(&mut self, name: &Name) -> Result<(), DiskFault> {
        let done = self.folder.sync(&self.rt, name);
        self.or_fault(done)
    }

    /// A file that is not there is no fault: it is gone, and stays so through a crash.
    fn remove(&mut self, name: &Name) -> Result<(), DiskFault> {
        let done = self.folder.remove(&self.rt, name);
        self.or_fault(done)
    }
}
