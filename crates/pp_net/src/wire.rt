// The calls of `Wire` over real sockets.
ghost use Rattle.std.specs.Prelude.{◌≡◌, ◌≤◌, IfSome};
ghost use Rattle.pp_world.specs.declared.event.Event.TheVariants.{Tick};
ghost use Rattle.pp_world.specs.declared.event.Wants.{Wants};
ghost use Rattle.pp_net.specs.Found.{Finds, IsFoundFor};

use crate::connection::Phase;
use crate::folder::Folder;
use crate::net_world::NetWorld;
use crate::rotation::Turn;
use crate::{console, files};
use httpdate::HttpDate;
use pp_access::Line;
use pp_text::Octets;
use pp_world::{ConfigFault, Door, Event, Got, Note, Replied, Wants, Wire, WireFault};
use std::alloc::Global;
use std::fs::File;
use std::net::Net;
use std::rt::{Files, Runtime};
use std::time::{Duration, Instant};

/// After so many events the system is asked again, though more are known.
const MOST_FOUND: u32 = 256;

/// Said once, where the folder of files is no longer at its path.
const MOVED_LINE: &[u8] = b"polipo: the disk cache was moved, and nothing more is kept\n";

/// The last second of the year 9999, the last that a line can tell.
const LAST_SECOND: u64 = 253_402_300_799;

fn millis_of(duration: Duration) -> u64 {
    u64::try_from(duration.as_millis()).unwrap_or(u64::MAX)
}

/// What is left of the second that has begun.
fn rest_of_second(now: Duration) -> Duration {
    Duration::from_millis(1000 - u64::from(now.subsec_millis()).min(1000))
}

impl<R: Runtime + AllocGlobal + Net + Files<File = File>> NetWorld<R> {
    /// The program ends: what waits of the operator's log is written.
    pub fn end(&mut self) {
        self.access.end(&self.rt);
    }

    // A second that was not told yet.
    fn find_tick(&mut self, now: u64) -> Option<Event>
        ensures tick { IfSome result (λ event. event ≡ Tick now) }
        ensures faults { self.new.faults ≡ self.old.faults }
        ensures top { self.new.top ≡ self.old.top }
    {
        if self.second == Some(now) {
            return None;
        }
        self.second = Some(now);
        self.connections.end_lingering(now);
        if let Some(door) = self.door.as_mut() {
            door.knock();
        }
        Some(Event::Tick(now))
    }

    // Nothing more is kept where the path of the folder names another, which nobody locked.
    fn leave_moved_folder(&mut self)
        ensures faults { self.old.faults ≤ self.new.faults }
        ensures top { self.new.top ≡ self.old.top }
    {
        if self.folder.is_moved(&self.rt) {
            self.folder = Folder::Closed;
            self.print(MOVED_LINE);
        }
    }

    // Writes a line for the reply to this client.
    fn put_reply(&mut self, reply: &Replied<'_>, now: Instant)
        ensures faults { self.new.faults ≡ self.old.faults }
        ensures top { self.new.top ≡ self.old.top }
    {
        let Some(connection) = self.connections.get_mut(reply.client) else {
            return;
        };
        let Some(visit) = connection.visit_mut() else {
            return;
        };
        let second = self.second.unwrap_or(0).min(LAST_SECOND);
        let Ok(date) = HttpDate::from_unix_secs(second) else {
            return;
        };
        let line = Line {
            address: visit.address,
            date,
            request: reply.request,
            status: reply.status,
            body_len: reply.body_len,
            source: reply.source,
            is_cut: reply.is_cut,
            millis: millis_of(visit.answer(now)),
        };
        self.access.put(&self.rt, &line);
    }

    // How long the system is waited for: to the end of the second, and not at all where somebody may wait unreported.
    fn patience(&mut self, now: Duration) -> Duration
        ensures faults { self.new.faults ≡ self.old.faults }
        ensures top { self.new.top ≡ self.old.top }
    {
        let is_crowded = match self.door.as_mut() {
            Some(door) => door.take_crowd(),
            None => false,
        };
        if is_crowded {
            Duration::ZERO
        } else {
            rest_of_second(now)
        }
    }

    // What is known without asking the system.
    fn find(&mut self, wants: &Wants) -> Option<Event>
        ensures found { Finds wants.now self.old.top self.new.top result }
        ensures faults { self.old.faults ≤ self.new.faults }
    {
        if let Some(event) = self.find_answered() {
            return Some(event);
        }
        for _ in 0..3 {
            let turn = self.rotation.pass();
            if let Some(event) = self.find_in(turn, wants) {
                return Some(event);
            }
        }
        None
    }

    // How a dial went. An address that failed is passed over.
    fn find_answered(&mut self) -> Option<Event>
        ensures found { (wants : Wants) → IfSome result (IsFoundFor wants self.old.top self.new.top) }
        ensures faults { self.old.faults ≤ self.new.faults }
        ensures top { self.new.top ≡ self.old.top }
    {
        let connection = self.connections.answered()?;
        let Phase::Answered(dial) = connection.phase() else {
            return None;
        };
        let id = connection.id();
        match connection.reach() {
            Ok(()) => Some(Event::Reached(id)),
            Err(_) => {
                self.hosts.pass_over(dial.address);
                self.fault();
                Some(Event::Broken(id))
            }
        }
    }

    fn find_in(&mut self, turn: Turn, wants: &Wants) -> Option<Event>
        ensures found { Finds wants.now self.old.top self.new.top result }
        ensures faults { self.old.faults ≤ self.new.faults }
    {
        match turn {
            Turn::Write => self.find_writable(wants),
            Turn::Read => self.find_readable(wants),
            Turn::Accept => self.find_client(wants),
        }
    }

    fn find_writable(&mut self, wants: &Wants) -> Option<Event>
        ensures found { Finds wants.now self.old.top self.new.top result }
        ensures faults { self.new.faults ≡ self.old.faults }
    {
        let ids = wants.write.as_slice();
        let last = self.rotation.last_written;
        let id = self.connections.next_writable(ids, last)?;
        self.rotation.last_written = id;
        Some(Event::Writable(id))
    }

    fn find_readable(&mut self, wants: &Wants) -> Option<Event>
        ensures found { Finds wants.now self.old.top self.new.top result }
        ensures faults { self.new.faults ≡ self.old.faults }
    {
        let id = self.connections.next_readable(wants.read.as_slice())?;
        Some(Event::Readable(id))
    }

    fn find_client(&mut self, wants: &Wants) -> Option<Event>
        ensures found { Finds wants.now self.old.top self.new.top result }
        ensures faults { self.old.faults ≤ self.new.faults }
    {
        if !wants.accept {
            return None;
        }
        match self.accept() {
            Ok(Some(id)) => Some(Event::Accepted(id)),
            Ok(None) => None,
            Err(_) => {
                self.fault();
                None
            }
        }
    }
}

impl<R: Runtime + AllocGlobal + Net + Files<File = File>> Wire for NetWorld<R> {
    fn next(&mut self, wants: &Wants) -> Event {
        for _ in 0..u64::MAX {
            let now = self.clock();
            let second = self.seconds.tell(now.as_secs());
            if let Some(tick) = self.find_tick(second) {
                self.leave_moved_folder();
                self.access.tick(&self.rt);
                return tick;
            }
            if self.found >= MOST_FOUND {
                self.access.flush(&self.rt);
                self.ask(Duration::ZERO);
            }
            if let Some(event) = self.find(wants) {
                self.found = self.found.saturating_add(1);
                return event;
            }
            self.access.flush(&self.rt);
            let patience = self.patience(now);
            self.ask(patience);
        }
        Event::Stop
    }

    fn read(&mut self, id: u64, buf: &mut [u8]) -> Result<Got, WireFault> {
        let Some(connection) = self.connections.get_mut(id) else {
            return Err(self.fault());
        };
        match connection.read(buf) {
            Ok(got) => {
                if let Some(now) = self.access.now(&self.rt) {
                    connection.note_read(got, now);
                }
                Ok(got)
            }
            Err(_) => Err(self.fault()),
        }
    }

    fn write(&mut self, id: u64, bytes: &[u8]) -> Result<usize, WireFault> {
        let Some(connection) = self.connections.get_mut(id) else {
            return Err(self.fault());
        };
        match connection.write(bytes) {
            Ok(taken) => Ok(taken),
            Err(_) => Err(self.fault()),
        }
    }

    fn listen(&mut self, door: &Door<'_>) -> Result<(), WireFault> {
        match self.open_door(door) {
            Ok(()) => {
                self.access.open(&self.rt, door.access_log);
                Ok(())
            }
            Err(_) => Err(self.fault()),
        }
    }

    /// Waits for the system where the host is a name that was not looked up lately.
    fn dial(&mut self, host: &[u8], port: u16) -> Result<u64, WireFault> {
        match self.connect(host, port) {
            Ok(id) => Ok(id),
            Err(_) => Err(self.fault()),
        }
    }

    /// Where a dial is given up that nobody answered, its address is passed over.
    fn close(&mut self, id: u64) {
        let now = self.second.unwrap_or(0);
        if let Some(address) = self.connections.silent(id, now) {
            self.hosts.pass_over(address);
        }
        self.connections.close(id, now);
    }

    /// Puts nothing on record: no log is told.
    fn note(&mut self, _note: &Note<'_>) {}

    fn print(&mut self, bytes: &[u8]) {
        if console::print(&self.rt, bytes).is_err() {
            self.fault();
        }
    }

    fn log_reply(&mut self, reply: &Replied<'_>) {
        if let Some(now) = self.access.now(&self.rt) {
            self.put_reply(reply, now);
        }
    }

    fn config(&mut self, alloc: Global, name: &str) -> Result<Octets, ConfigFault> {
        let front = files::read_front(&self.rt, alloc, name);
        if let Err(ConfigFault::Unreadable) = front {
            self.fault();
        }
        front
    }
}
