// A folder of files, as the proxy sees it.
ghost use Rattle.std.specs.Prelude.{◌≡◌, ◌≤◌, length, IfOk, OnErr};
ghost use Rattle.pp_world.specs.declared.happening.Happening.TheVariants.{Rooted};
ghost use Rattle.pp_world.specs.declared.op.DiskOp.TheVariants.{Draft, SyncDraft, Publish, Write, Sync, Remove};
ghost use Rattle.pp_world.specs.Disk.{AreNames, GivesBytes, GivesLength, GivesNames, HasDraft, NamesCause, Reaches, look_happenings, names_happenings, op_happenings};
ghost use Rattle.pp_world.specs.Log.{Appends, AppendsAll, Rises, Told};

use crate::{Logged, Name};
use std::alloc::Global;
use thiserror::Error;

/// A file or the folder failed.
#[derive(Clone, Copy, Debug, PartialEq, Eq, Error)]
#[error("a file or the folder failed")]
pub struct DiskFault;

/// Why the folder was not listed.
#[derive(Clone, Copy, Debug, PartialEq, Eq, Error)]
pub enum NamesFault {
    /// The folder is not there, or could not be read.
    #[error("the folder could not be read")]
    Disk,
    /// Memory was asked for and not given.
    #[error("memory was asked for and not given")]
    OutOfMemory,
}

/// A folder of files, and one draft that becomes a file in one step.
///
/// Where the log is told, a file holds what the operations of this life left of it, as long as none
/// on its name failed; what a crash may leave is `IsLeftBehind` of `specs/Disk.antt`.
pub trait Disk: Logged {
    /// Uses this folder, which is made where it is not there. Called once.
    fn root(&mut self, folder: &[u8])
        ensures told { Appends (Self.log self.old) (Self.log self.new) (λ l. Rooted folder.now) }
        ensures faults { Self.faults self.old ≤ Self.faults self.new }
        ensures top { Self.top self.new ≡ Self.top self.old };

    /// The names of 32 lower hexadecimal digits that files have, in the order of their bytes, and at
    /// most the first 65,536 of them. Where memory was refused, nothing has happened.
    fn names(&mut self, alloc: Global) -> Result<Vec<Name>, NamesFault>
        ensures told { AppendsAll (Self.log self.old) (Self.log self.new) (λ l. names_happenings result) }
        ensures form { IfOk result (λ names. AreNames names.items) }
        ensures names { Told (Self.log self.old) (GivesNames result) }
        ensures faults { Self.faults self.old ≤ Self.faults self.new }
        ensures cause { NamesCause (Self.log self.new) (Self.faults self.old) (Self.faults self.new) result }
        ensures top { Self.top self.new ≡ Self.top self.old };

    /// How many bytes the file of this name has: 0 where there is none.
    fn length(&mut self, name: &Name) -> Result<u64, DiskFault>
        ensures told { AppendsAll (Self.log self.old) (Self.log self.new) (λ l. look_happenings name.now result) }
        ensures length { Told (Self.log self.old) (GivesLength name.now result) }
        ensures faults { Self.faults self.old ≤ Self.faults self.new }
        ensures cause { OnErr result (Rises (Self.log self.new) (Self.faults self.old) (Self.faults self.new)) }
        ensures top { Self.top self.new ≡ Self.top self.old };

    /// Reads the file of this name from an offset on, into the front of the buffer, and answers how
    /// many bytes. What stands behind them may change too.
    fn read(&mut self, name: &Name, at: u64, buf: &mut [u8]) -> Result<usize, DiskFault>
        ensures told { AppendsAll (Self.log self.old) (Self.log self.new) (λ l. look_happenings name.now result) }
        ensures within { IfOk result (λ n. n ≤ length buf.new) }
        ensures bytes { Told (Self.log self.old) (GivesBytes name.now at buf.new result) }
        ensures faults { Self.faults self.old ≤ Self.faults self.new }
        ensures cause { OnErr result (Rises (Self.log self.new) (Self.faults self.old) (Self.faults self.new)) }
        ensures top { Self.top self.new ≡ Self.top self.old };

    /// Makes the draft hold just these bytes.
    fn draft(&mut self, bytes: &[u8]) -> Result<(), DiskFault>
        ensures told { AppendsAll (Self.log self.old) (Self.log self.new) (λ l. op_happenings (Draft bytes.now) result) }
        ensures faults { Self.faults self.old ≤ Self.faults self.new }
        ensures cause { OnErr result (Rises (Self.log self.new) (Self.faults self.old) (Self.faults self.new)) }
        ensures top { Self.top self.new ≡ Self.top self.old };

    /// Makes what the draft holds stand through a crash. Where that fails, there is no draft any more.
    fn sync_draft(&mut self) -> Result<(), DiskFault>
        ensures told { AppendsAll (Self.log self.old) (Self.log self.new) (λ l. op_happenings SyncDraft result) }
        ensures faults { Self.faults self.old ≤ Self.faults self.new }
        ensures cause { OnErr result (Rises (Self.log self.new) (Self.faults self.old) (Self.faults self.new)) }
        ensures top { Self.top self.new ≡ Self.top self.old };

    /// Makes the draft the file of this name, in one step that stands through a crash.
    fn publish(&mut self, name: &Name) -> Result<(), DiskFault>
        requires drafted { Told (Self.log self.old) HasDraft }
        ensures told { AppendsAll (Self.log self.old) (Self.log self.new) (λ l. op_happenings (Publish name.now) result) }
        ensures faults { Self.faults self.old ≤ Self.faults self.new }
        ensures cause { OnErr result (Rises (Self.log self.new) (Self.faults self.old) (Self.faults self.new)) }
        ensures top { Self.top self.new ≡ Self.top self.old };

    /// Writes bytes over the file of this name from an offset on, which its length reaches.
    fn write(&mut self, name: &Name, at: u64, bytes: &[u8]) -> Result<(), DiskFault>
        requires reaches { Told (Self.log self.old) (Reaches name.now at) }
        ensures told { AppendsAll (Self.log self.old) (Self.log self.new) (λ l. op_happenings (Write name.now at bytes.now) result) }
        ensures faults { Self.faults self.old ≤ Self.faults self.new }
        ensures cause { OnErr result (Rises (Self.log self.new) (Self.faults self.old) (Self.faults self.new)) }
        ensures top { Self.top self.new ≡ Self.top self.old };

    /// Makes what the file of this name holds stand through a crash, unless an operation on the name
    /// failed before in this life: what that one lost, no sync brings back.
    fn sync(&mut self, name: &Name) -> Result<(), DiskFault>
        ensures told { AppendsAll (Self.log self.old) (Self.log self.new) (λ l. op_happenings (Sync name.now) result) }
        ensures faults { Self.faults self.old ≤ Self.faults self.new }
        ensures cause { OnErr result (Rises (Self.log self.new) (Self.faults self.old) (Self.faults self.new)) }
        ensures top { Self.top self.new ≡ Self.top self.old };

    /// Takes the file of this name away, in one step that stands through a crash.
    fn remove(&mut self, name: &Name) -> Result<(), DiskFault>
        ensures told { AppendsAll (Self.log self.old) (Self.log self.new) (λ l. op_happenings (Remove name.now) result) }
        ensures faults { Self.faults self.old ≤ Self.faults self.new }
        ensures cause { OnErr result (Rises (Self.log self.new) (Self.faults self.old) (Self.faults self.new)) }
        ensures top { Self.top self.new ≡ Self.top self.old };
}
