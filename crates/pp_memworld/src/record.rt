// The log of a world in memory, and the connections and files that it leads to.
ghost use Rattle.std.specs.Prelude.{◌≡◌, ◌<◌, ◌≤◌, ◌+◌, ◌-◌, ◌^◌, true, false, [], ◌∷◌, ◌++◌, length, take, if◌then◌else◌, ◌↔◌, IsTrue, IfOk, IfSome, OnErr, Option, Some, None};
ghost use Rattle.std.specs.List.{list_all};
ghost use Rattle.std.specs.Option.{option_copied};
ghost use Rattle.pp_world.specs.Connections.{side_of, top_of};
ghost use Rattle.pp_world.specs.Disk.{AreNames, HasDraft, Reaches, Stands, Stored, bytes_in, image_of, names_in};
ghost use Rattle.pp_world.specs.Files.{Files};
ghost use Rattle.pp_world.specs.Log.{Appends, Rises, Told};
ghost use Rattle.pp_world.specs.Wire.{by_side, close_happening, note_happening};
ghost use Rattle.pp_memworld.specs.Folder.{is_sound};
ghost use Rattle.pp_memworld.specs.Keeping.{Keeps, KeepsFiles};
ghost use Rattle.pp_memworld.specs.Operation.{op_of};
ghost use Rattle.pp_memworld.specs.Sides.{IsTied, KeepsConnections, side_at};
ghost use Rattle.pp_memworld.specs.Slots.{AreListed};

use crate::folder::Folder;
use crate::operation::{Operation, kept};
use crate::sides::{closed, ended, heard, lost, said};
use crate::telling::{begun, displace, follow, follow_unread, place, push, push_dialled, remark};
use pp_text::{Octets, OutOfMemory};
use pp_world::{DiskOp, Happening, Image, Name, Note, Side};
use std::alloc::Global;
use std::collections::BTreeMap;

/// The log, the sides of its open connections, its counts, and the files of the folder.
#[derive(Drop)]
pub(crate) struct Record {
    alloc: Global,
    told: bool,
    log: Vec<Happening>,
    sides: BTreeMap<u64, Side>,
    top: u64,
    faults: u64,
    folder: Folder,
    ghost tied: { IsTied told log.items sides top faults },
    ghost kept: { Keeps told log.items folder },
}

impl Record {
    ghost use Rattle.pp_memworld.specs.Record.{SameNumbers, Stays, Tells, one_more, record_log};

    /// The record of a life that begins after this log, over these files.
    pub(crate) fn new(
        alloc: Global,
        log: Vec<Happening>,
        top: u64,
        image: Image,
    ) -> Result<Record, OutOfMemory>
        requires sound { IsTrue (list_all is_sound log.items) }
        requires listed { AreListed image }
        requires top { top_of log.items ≤ top }
        ensures log { IfOk result (λ r. r.log.items ≡ log.items ++ Happening.Woke image ∷ []) }
        ensures told { IfOk result (λ r. r.told ≡ true) }
        ensures top { IfOk result (λ r. r.top ≡ top) }
        ensures faults { IfOk result (λ r. r.faults ≡ 0) }
    {
        let mut folder = Folder::new(alloc);
        folder.wake(alloc, &image)?;
        let log = begun(log, image)?;
        Ok(Record {
            alloc,
            told: true,
            log,
            sides: BTreeMap::new(alloc),
            top,
            faults: 0,
            folder,
        })
    }

    /// Whose this connection is, while it is open.
    pub(crate) fn side(&self, id: u64) -> Option<Side>
        ensures side { result ≡ side_at self.now.sides id }
        ensures tied { self.now.told ≡ true → result ≡ side_of id self.now.log.items }
    {
        self.sides.get(&id).copied()
    }

    /// Something happened by which no connection came or went, and no file changed.
    pub(crate) fn tell(&mut self, happening: Happening)
        requires connections { KeepsConnections happening }
        requires files { KeepsFiles happening }
        ensures tells { Tells self.old self.new happening }
        ensures same { SameNumbers self.old self.new }
    {
        self.told = push(self.told, &mut self.log, happening);
    }

    /// A fault happened.
    pub(crate) fn fail(&mut self, happening: Happening)
        requires connections { KeepsConnections happening }
        requires files { KeepsFiles happening }
        ensures tells { Tells self.old self.new happening }
        ensures faults { self.new.faults ≡ one_more self.old.faults }
        ensures rises { Rises (record_log self.new) self.old.faults self.new.faults }
        ensures never_falls { self.old.faults ≤ self.new.faults }
        ensures sides { self.new.sides ≡ self.old.sides }
        ensures top { self.new.top ≡ self.old.top }
    {
        self.told = push(self.told, &mut self.log, happening);
        self.faults = self.faults.saturating_add(1);
    }

    /// The file of this name could not be read.
    pub(crate) fn look_away(&mut self, name: &Name)
        ensures tells { Tells self.old self.new (Happening.Unread name.now) }
        ensures faults { self.new.faults ≡ one_more self.old.faults }
        ensures rises { Rises (record_log self.new) self.old.faults self.new.faults }
        ensures never_falls { self.old.faults ≤ self.new.faults }
        ensures sides { self.new.sides ≡ self.old.sides }
        ensures top { self.new.top ≡ self.old.top }
    {
        self.told = follow_unread(self.told, &mut self.log, &mut self.folder, name);
        self.faults = self.faults.saturating_add(1);
    }

    /// A fault happened that is not told, for want of memory.
    fn fail_untold(&mut self)
        ensures untold { self.new.told ≡ false }
        ensures faults { self.new.faults ≡ one_more self.old.faults }
        ensures rises { Rises (record_log self.new) self.old.faults self.new.faults }
        ensures never_falls { self.old.faults ≤ self.new.faults }
        ensures sides { self.new.sides ≡ self.old.sides }
        ensures top { self.new.top ≡ self.old.top }
    {
        self.told = false;
        self.faults = self.faults.saturating_add(1);
    }

    /// What goes on was kept; or else the log is told no more.
    pub(crate) fn keep(&mut self, kept: Result<(), OutOfMemory>)
        ensures stays { Stays self.old self.new }
        ensures untold { OnErr kept (self.new.told ≡ false) }
    {
        if kept.is_err() {
            self.told = false;
        }
    }

    /// The log is told no more: memory for it, or for what goes on, was refused.
    pub(crate) fn untell(&mut self)
        ensures untold { self.new.told ≡ false }
        ensures stays { Stays self.old self.new }
    {
        self.told = false;
    }

    /// The log, where it is told.
    pub(crate) fn log(&self) -> Option<&[Happening]>
        ensures log { option_copied result ≡ record_log self.now }
        ensures sound { IfSome result (λ log. IsTrue (list_all is_sound log.now)) }
    {
        if self.told {
            Some(self.log.as_slice())
        } else {
            None
        }
    }

    pub(crate) fn top(&self) -> u64
        ensures { result ≡ self.now.top }
    {
        self.top
    }

    /// Whether this connection was dialled and is not closed.
    pub(crate) fn is_dialled(&self, id: u64) -> bool
        ensures { IsTrue result ↔ (side_at self.now.sides id ≡ Some Side.Origin) }
    {
        match self.side(id) {
            Some(Side::Origin) => true,
            Some(Side::Client) | None => false,
        }
    }

    /// These bytes came.
    pub(crate) fn hear(&mut self, id: u64, bytes: &[u8])
        ensures told { Appends (record_log self.old) (record_log self.new) (λ l. by_side (side_of id l) (Happening.Heard id bytes.now) (Happening.Got id bytes.now)) }
        ensures same { SameNumbers self.old self.new }
    {
        match Octets::copy(self.alloc, bytes) {
            Ok(copy) => {
                let side = self.side(id);
                self.tell(heard(side, id, copy));
            }
            Err(_) => self.untell(),
        }
    }

    /// The other side will send no more.
    pub(crate) fn end(&mut self, id: u64)
        ensures told { Appends (record_log self.old) (record_log self.new) (λ l. by_side (side_of id l) (Happening.HungUp id) (Happening.Ended id)) }
        ensures same { SameNumbers self.old self.new }
    {
        let side = self.side(id);
        self.tell(ended(side, id));
    }

    /// So many of these bytes were taken.
    pub(crate) fn say(&mut self, id: u64, bytes: &[u8], count: usize)
        requires { count ≤ length bytes.now }
        ensures told { Appends (record_log self.old) (record_log self.new) (λ l. by_side (side_of id l) (Happening.Said id (length bytes.now) (take count bytes.now)) (Happening.Asked id (take count bytes.now))) }
        ensures same { SameNumbers self.old self.new }
    {
        match Octets::copy(self.alloc, &bytes[..count]) {
            Ok(copy) => {
                let side = self.side(id);
                self.tell(said(side, id, bytes.len() as u64, copy));
            }
            Err(_) => self.untell(),
        }
    }

    /// A connection is lost.
    pub(crate) fn lose(&mut self, id: u64)
        ensures told { Appends (record_log self.old) (record_log self.new) (λ l. by_side (side_of id l) (Happening.HungUp id) (Happening.Broke id)) }
        ensures faults { self.new.faults ≡ one_more self.old.faults }
        ensures rises { Rises (record_log self.new) self.old.faults self.new.faults }
        ensures never_falls { self.old.faults ≤ self.new.faults }
        ensures top { self.new.top ≡ self.old.top }
    {
        let side = self.side(id);
        self.fail(lost(side, id));
    }

    /// A dial was refused at once.
    pub(crate) fn refuse(&mut self, host: &[u8], port: u16)
        ensures tells { Tells self.old self.new (Happening.Undialled host.now port) }
        ensures faults { self.new.faults ≡ one_more self.old.faults }
        ensures rises { Rises (record_log self.new) self.old.faults self.new.faults }
        ensures never_falls { self.old.faults ≤ self.new.faults }
        ensures top { self.new.top ≡ self.old.top }
    {
        match Octets::copy(self.alloc, host) {
            Ok(copy) => self.fail(Happening::Undialled(copy, port)),
            Err(_) => self.fail_untold(),
        }
    }

    /// A configuration file was read.
    pub(crate) fn configure(&mut self, name: &[u8], text: &[u8])
        ensures tells { Tells self.old self.new (Happening.Configured name.now (Some text.now)) }
        ensures same { SameNumbers self.old self.new }
    {
        match (
            Octets::copy(self.alloc, name),
            Octets::copy(self.alloc, text),
        ) {
            (Ok(name), Ok(text)) => self.tell(Happening::Configured(name, Some(text))),
            (Ok(_), Err(_)) | (Err(_), _) => self.untell(),
        }
    }

    /// A configuration file could not be read.
    pub(crate) fn misread(&mut self, name: &[u8])
        ensures tells { Tells self.old self.new (Happening.Configured name.now None) }
        ensures faults { self.new.faults ≡ one_more self.old.faults }
        ensures rises { Rises (record_log self.new) self.old.faults self.new.faults }
        ensures never_falls { self.old.faults ≤ self.new.faults }
        ensures top { self.new.top ≡ self.old.top }
    {
        match Octets::copy(self.alloc, name) {
            Ok(copy) => self.fail(Happening::Configured(copy, None)),
            Err(_) => self.fail_untold(),
        }
    }

    pub(crate) fn print(&mut self, bytes: &[u8])
        ensures tells { Tells self.old self.new (Happening.Printed bytes.now) }
        ensures same { SameNumbers self.old self.new }
    {
        match Octets::copy(self.alloc, bytes) {
            Ok(copy) => self.tell(Happening::Printed(copy)),
            Err(_) => self.untell(),
        }
    }

    pub(crate) fn note(&mut self, note: &Note<'_>)
        ensures tells { Tells self.old self.new (note_happening note.now) }
        ensures same { SameNumbers self.old self.new }
    {
        match remark(self.alloc, note) {
            Ok(remark) => self.tell(Happening::Noted(remark)),
            Err(_) => self.untell(),
        }
    }

    /// A client is accepted, and has the next number.
    pub(crate) fn accept(&mut self) -> u64
        requires { self.old.top < 2 ^ 64 - 1 }
        ensures number { result ≡ self.old.top + 1 }
        ensures tells { Tells self.old self.new (Happening.Opened result) }
        ensures top { self.new.top ≡ result }
        ensures faults { self.new.faults ≡ self.old.faults }
    {
        let id = self.top + 1;
        let placed = place(self.told, &mut self.sides, id, Side::Client);
        self.told = push(placed, &mut self.log, Happening::Opened(id));
        self.top = id;
        id
    }

    /// An origin is dialled, and has the next number.
    pub(crate) fn dial(&mut self, host: &[u8], port: u16) -> u64
        requires { self.old.top < 2 ^ 64 - 1 }
        ensures number { result ≡ self.old.top + 1 }
        ensures tells { Tells self.old self.new (Happening.Dialled result host.now port) }
        ensures top { self.new.top ≡ result }
        ensures faults { self.new.faults ≡ self.old.faults }
    {
        let id = self.top + 1;
        let placed = place(self.told, &mut self.sides, id, Side::Origin);
        self.told = push_dialled(placed, &mut self.log, self.alloc, id, host, port);
        self.top = id;
        id
    }

    /// A connection is closed.
    pub(crate) fn close(&mut self, id: u64)
        ensures told { Appends (record_log self.old) (record_log self.new) (close_happening id) }
        ensures top { self.new.top ≡ self.old.top }
        ensures faults { self.new.faults ≡ self.old.faults }
    {
        let side = displace(&mut self.sides, id);
        self.told = push(self.told, &mut self.log, closed(side, id));
    }

    /// The proxy uses this folder.
    pub(crate) fn root(&mut self, folder: &[u8])
        ensures tells { Tells self.old self.new (Happening.Rooted folder.now) }
        ensures same { SameNumbers self.old self.new }
    {
        match Octets::copy(self.alloc, folder) {
            Ok(copy) => self.tell(Happening::Rooted(copy)),
            Err(_) => self.untell(),
        }
    }

    /// An operation on the disk was begun, and was done or failed.
    pub(crate) fn operate(&mut self, operation: Operation<'_>, is_done: bool)
        ensures told { self.new.told ≡ true → self.old.told ≡ true }
        ensures log { self.new.told ≡ true → self.new.log.items ≡ self.old.log.items ++ Happening.Began (op_of operation.entry) ∷ Happening.Did (op_of operation.entry) is_done ∷ [] }
        ensures faults { self.new.faults ≡ (if is_done then self.old.faults else one_more self.old.faults) }
        ensures rises { is_done ≡ false → Rises (record_log self.new) self.old.faults self.new.faults }
        ensures never_falls { self.old.faults ≤ self.new.faults }
        ensures top { self.new.top ≡ self.old.top }
    {
        match (kept(self.alloc, operation), kept(self.alloc, operation)) {
            (Ok(begun), Ok(did)) => self.follow_both(begun, did, is_done),
            (Ok(_), Err(_)) | (Err(_), _) => self.untell(),
        }
        if !is_done {
            self.faults = self.faults.saturating_add(1);
        }
    }

    fn follow_both(&mut self, begun: DiskOp, did: DiskOp, is_done: bool)
        requires { did ≡ begun }
        ensures told { self.new.told ≡ true → self.old.told ≡ true }
        ensures log { self.new.told ≡ true → self.new.log.items ≡ self.old.log.items ++ Happening.Began begun ∷ Happening.Did begun is_done ∷ [] }
        ensures same { SameNumbers self.old self.new }
    {
        let first = follow(
            self.told,
            self.alloc,
            &mut self.log,
            &mut self.folder,
            Happening::Began(begun),
        );
        self.told = follow(
            first,
            self.alloc,
            &mut self.log,
            &mut self.folder,
            Happening::Did(did, is_done),
        );
    }

    /// Whether a draft is there.
    pub(crate) fn has_draft(&self) -> bool
        ensures { Told (record_log self.now) (λ l. result ≡ true → HasDraft l) }
    {
        self.folder.has_draft()
    }

    /// Whether one file stands under the name, and is so long at least.
    pub(crate) fn reaches(&self, name: &Name, at: u64) -> bool
        ensures { Told (record_log self.now) (λ l. result ≡ true → Reaches name.now at l) }
    {
        self.folder.reaches(name, at)
    }

    /// What reads give of the file of this name: nothing, where there is none.
    pub(crate) fn bytes(&self, name: &Name) -> &[u8]
        ensures { Told (record_log self.now) (λ l. (file : Option Stored) → Stands name.now l file → result.now ≡ bytes_in file) }
    {
        self.folder.bytes(name)
    }

    /// The names that a listing gives.
    pub(crate) fn names(&self, alloc: Global) -> Result<Vec<Name>, OutOfMemory>
        ensures form { IfOk result (λ names. AreNames names.items) }
        ensures names { IfOk result (λ names. Told (record_log self.now) (λ l. (files : Files) → image_of l ≡ Some files → names.items ≡ names_in files)) }
    {
        self.folder.names(alloc)
    }
}
