// The world as a Disk: each call is done at once, and told.
ghost use Rattle.std.specs.Prelude.{◌≡◌, ◌≤◌, ◌∷◌, [], true, if◌then◌else◌, length, take, drop, is_err, IfOk, OnErr};
ghost use Rattle.pp_world.specs.declared.happening.Happening.TheVariants.{Rooted, Unread};
ghost use Rattle.pp_world.specs.declared.op.DiskOp.TheVariants.{Draft, SyncDraft, Publish, Write, Sync, Remove};
ghost use Rattle.pp_world.specs.Disk.{AreNames, GivesBytes, GivesLength, GivesNames, HasDraft, NamesCause, Reaches, look_happenings, names_happenings, op_happenings};
ghost use Rattle.pp_world.specs.Log.{Appends, AppendsAll, Rises, Told};
ghost use Rattle.pp_memworld.specs.Calls.{call_number};
ghost use Rattle.pp_memworld.specs.Listing.{is_lost, is_short};
ghost use Rattle.pp_memworld.specs.MemWorld.{EndsStay, Made, OneMoreCall, SameCalls, fails, faults_after, faults_of, told_log, top_number};
ghost use Rattle.pp_memworld.specs.Operation.{op_of};

use crate::MemWorld;
use crate::operation::Operation;
use crate::parts::{back_of, front_of};
use pp_world::{Disk, DiskFault, Happening, Name, NamesFault};
use std::alloc::Global;

impl MemWorld {
    /// Whether a draft is there, which can be published.
    pub fn has_draft(&self) -> bool
        ensures { Told (told_log self.now) (λ l. result ≡ true → HasDraft l) }
    {
        self.record.has_draft()
    }

    /// Whether one file stands under the name, and a write may begin at this offset.
    pub fn reaches(&self, name: &Name, at: u64) -> bool
        ensures { Told (told_log self.now) (λ l. result ≡ true → Reaches name.now at l) }
    {
        self.record.reaches(name, at)
    }

    /// Does an operation, or fails it by its number.
    fn operate(&mut self, operation: Operation<'_>) -> Result<(), DiskFault>
        ensures told { AppendsAll (told_log self.old) (told_log self.new) (λ l. op_happenings (op_of operation.entry) result) }
        ensures fails { is_err result ≡ fails self.old }
        ensures faults { faults_of self.old ≤ faults_of self.new }
        ensures count { faults_of self.new ≡ faults_after (faults_of self.old) (is_err result) }
        ensures cause { OnErr result (Rises (told_log self.new) (faults_of self.old) (faults_of self.new)) }
        ensures top { top_number self.new ≡ top_number self.old }
        ensures calls { OneMoreCall self.old self.new }
        ensures ends { EndsStay self.old self.new }
    {
        let is_failing = self.calls.is_failing();
        self.calls.count();
        self.record.operate(operation, !is_failing);
        if is_failing { Err(DiskFault) } else { Ok(()) }
    }

    /// A file could not be read.
    fn look_away(&mut self, name: &Name)
        ensures told { AppendsAll (told_log self.old) (told_log self.new) (λ l. Unread name.now ∷ []) }
        ensures count { faults_of self.new ≡ faults_after (faults_of self.old) true }
        ensures rises { Rises (told_log self.new) (faults_of self.old) (faults_of self.new) }
        ensures never_falls { faults_of self.old ≤ faults_of self.new }
        ensures top { top_number self.new ≡ top_number self.old }
        ensures calls { OneMoreCall self.old self.new }
        ensures ends { EndsStay self.old self.new }
    {
        self.calls.count();
        self.record.look_away(name);
    }
}

impl Disk for MemWorld {
    fn root(&mut self, folder: &[u8])
        ensures told { Appends (told_log self.old) (told_log self.new) (λ l. Rooted folder.now) }
        ensures faults { faults_of self.old ≤ faults_of self.new }
        ensures count { faults_of self.new ≡ faults_of self.old }
        ensures top { top_number self.new ≡ top_number self.old }
        ensures calls { SameCalls self.old self.new }
        ensures ends { EndsStay self.old self.new }
    {
        self.record.root(folder);
    }

    fn names(&mut self, alloc: Global) -> Result<Vec<Name>, NamesFault>
        ensures told { AppendsAll (told_log self.old) (told_log self.new) (λ l. names_happenings result) }
        ensures form { IfOk result (λ names. AreNames names.items) }
        ensures names { Told (told_log self.old) (GivesNames result) }
        ensures fails { is_lost result ≡ fails self.old }
        ensures faults { faults_of self.old ≤ faults_of self.new }
        ensures count { faults_of self.new ≡ faults_after (faults_of self.old) (is_lost result) }
        ensures cause { NamesCause (told_log self.new) (faults_of self.old) (faults_of self.new) result }
        ensures top { top_number self.new ≡ top_number self.old }
        ensures calls { Made (if is_short result then self.old.calls.made else call_number self.old.calls.made) self.old self.new }
        ensures ends { EndsStay self.old self.new }
    {
        if self.calls.is_failing() {
            self.calls.count();
            self.record.fail(Happening::Listed(false));
            return Err(NamesFault::Disk);
        }
        let Ok(names) = self.record.names(alloc) else {
            return Err(NamesFault::OutOfMemory);
        };
        self.calls.count();
        self.record.tell(Happening::Listed(true));
        Ok(names)
    }

    fn length(&mut self, name: &Name) -> Result<u64, DiskFault>
        ensures told { AppendsAll (told_log self.old) (told_log self.new) (λ l. look_happenings name.now result) }
        ensures length { Told (told_log self.old) (GivesLength name.now result) }
        ensures fails { is_err result ≡ fails self.old }
        ensures faults { faults_of self.old ≤ faults_of self.new }
        ensures count { faults_of self.new ≡ faults_after (faults_of self.old) (is_err result) }
        ensures cause { OnErr result (Rises (told_log self.new) (faults_of self.old) (faults_of self.new)) }
        ensures top { top_number self.new ≡ top_number self.old }
        ensures calls { OneMoreCall self.old self.new }
        ensures ends { EndsStay self.old self.new }
    {
        if self.calls.is_failing() {
            self.look_away(name);
            return Err(DiskFault);
        }
        self.calls.count();
        Ok(self.record.bytes(name).len() as u64)
    }

    fn read(&mut self, name: &Name, at: u64, buf: &mut [u8]) -> Result<usize, DiskFault>
        ensures told { AppendsAll (told_log self.old) (told_log self.new) (λ l. look_happenings name.now result) }
        ensures within { IfOk result (λ n. n ≤ length buf.new) }
        ensures bytes { Told (told_log self.old) (GivesBytes name.now at buf.new result) }
        ensures fails { is_err result ≡ fails self.old }
        ensures faults { faults_of self.old ≤ faults_of self.new }
        ensures count { faults_of self.new ≡ faults_after (faults_of self.old) (is_err result) }
        ensures cause { OnErr result (Rises (told_log self.new) (faults_of self.old) (faults_of self.new)) }
        ensures top { top_number self.new ≡ top_number self.old }
        ensures calls { OneMoreCall self.old self.new }
        ensures ends { EndsStay self.old self.new }
    {
        if self.calls.is_failing() {
            self.look_away(name);
            return Err(DiskFault);
        }
        self.calls.count();
        Ok(copy_out(self.record.bytes(name), at as usize, buf))
    }

    fn draft(&mut self, bytes: &[u8]) -> Result<(), DiskFault>
        ensures told { AppendsAll (told_log self.old) (told_log self.new) (λ l. op_happenings (Draft bytes.now) result) }
        ensures fails { is_err result ≡ fails self.old }
        ensures faults { faults_of self.old ≤ faults_of self.new }
        ensures count { faults_of self.new ≡ faults_after (faults_of self.old) (is_err result) }
        ensures cause { OnErr result (Rises (told_log self.new) (faults_of self.old) (faults_of self.new)) }
        ensures top { top_number self.new ≡ top_number self.old }
        ensures calls { OneMoreCall self.old self.new }
        ensures ends { EndsStay self.old self.new }
    {
        self.operate(Operation::Draft(bytes))
    }

    fn sync_draft(&mut self) -> Result<(), DiskFault>
        ensures told { AppendsAll (told_log self.old) (told_log self.new) (λ l. op_happenings SyncDraft result) }
        ensures fails { is_err result ≡ fails self.old }
        ensures faults { faults_of self.old ≤ faults_of self.new }
        ensures count { faults_of self.new ≡ faults_after (faults_of self.old) (is_err result) }
        ensures cause { OnErr result (Rises (told_log self.new) (faults_of self.old) (faults_of self.new)) }
        ensures top { top_number self.new ≡ top_number self.old }
        ensures calls { OneMoreCall self.old self.new }
        ensures ends { EndsStay self.old self.new }
    {
        self.operate(Operation::SyncDraft)
    }

    fn publish(&mut self, name: &Name) -> Result<(), DiskFault>
        requires drafted { Told (told_log self.old) HasDraft }
        ensures told { AppendsAll (told_log self.old) (told_log self.new) (λ l. op_happenings (Publish name.now) result) }
        ensures fails { is_err result ≡ fails self.old }
        ensures faults { faults_of self.old ≤ faults_of self.new }
        ensures count { faults_of self.new ≡ faults_after (faults_of self.old) (is_err result) }
        ensures cause { OnErr result (Rises (told_log self.new) (faults_of self.old) (faults_of self.new)) }
        ensures top { top_number self.new ≡ top_number self.old }
        ensures calls { OneMoreCall self.old self.new }
        ensures ends { EndsStay self.old self.new }
    {
        self.operate(Operation::Publish(name))
    }

    fn write(&mut self, name: &Name, at: u64, bytes: &[u8]) -> Result<(), DiskFault>
        requires reaches { Told (told_log self.old) (Reaches name.now at) }
        ensures told { AppendsAll (told_log self.old) (told_log self.new) (λ l. op_happenings (Write name.now at bytes.now) result) }
        ensures fails { is_err result ≡ fails self.old }
        ensures faults { faults_of self.old ≤ faults_of self.new }
        ensures count { faults_of self.new ≡ faults_after (faults_of self.old) (is_err result) }
        ensures cause { OnErr result (Rises (told_log self.new) (faults_of self.old) (faults_of self.new)) }
        ensures top { top_number self.new ≡ top_number self.old }
        ensures calls { OneMoreCall self.old self.new }
        ensures ends { EndsStay self.old self.new }
    {
        self.operate(Operation::Write(name, at, bytes))
    }

    fn sync(&mut self, name: &Name) -> Result<(), DiskFault>
        ensures told { AppendsAll (told_log self.old) (told_log self.new) (λ l. op_happenings (Sync name.now) result) }
        ensures fails { is_err result ≡ fails self.old }
        ensures faults { faults_of self.old ≤ faults_of self.new }
        ensures count { faults_of self.new ≡ faults_after (faults_of self.old) (is_err result) }
        ensures cause { OnErr result (Rises (told_log self.new) (faults_of self.old) (faults_of self.new)) }
        ensures top { top_number self.new ≡ top_number self.old }
        ensures calls { OneMoreCall self.old self.new }
        ensures ends { EndsStay self.old self.new }
    {
        self.operate(Operation::Sync(name))
    }

    fn remove(&mut self, name: &Name) -> Result<(), DiskFault>
        ensures told { AppendsAll (told_log self.old) (told_log self.new) (λ l. op_happenings (Remove name.now) result) }
        ensures fails { is_err result ≡ fails self.old }
        ensures faults { faults_of self.old ≤ faults_of self.new }
        ensures count { faults_of self.new ≡ faults_after (faults_of self.old) (is_err result) }
        ensures cause { OnErr result (Rises (told_log self.new) (faults_of self.old) (faults_of self.new)) }
        ensures top { top_number self.new ≡ top_number self.old }
        ensures calls { OneMoreCall self.old self.new }
        ensures ends { EndsStay self.old self.new }
    {
        self.operate(Operation::Remove(name))
    }
}

/// Copies what stands from this offset on to the front of the buffer, and answers how much.
fn copy_out(bytes: &[u8], at: usize, buf: &mut [u8]) -> usize
    ensures within { result ≤ length buf.new }
    ensures long { length buf.new ≡ length buf.old }
    ensures bytes { take result buf.new ≡ take (length buf.new) (drop at bytes.now) }
{
    let found = front_of(back_of(bytes, at), buf.len());
    let front = &mut buf[..found.len()];
    front.copy_from_slice(found);
    found.len()
}
