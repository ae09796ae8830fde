// An outside that tells nothing, and what a caller knows of any wire and disk.
ghost use Rattle.std.specs.Prelude.{◌≡◌, ◌<◌, ◌≤◌, ℕ, None, length, IfOk};
ghost use Rattle.pp_world.specs.Connections.{IsOpen};
ghost use Rattle.pp_world.specs.Log.{Told};

use crate::calls::{Call, Gives, Shelf, first_unlike};
use crate::turns::wants;
use pp_text::{Octets, OutOfMemory};
use pp_world::{
    AccessLog, Cause, ConfigFault, Disk, DiskFault, Door, Event, Got, Logged, Name, NamesFault,
    Note, Replied, Wants, Wire, WireFault, World,
};
use std::alloc::Global;

/// Nobody connects, every dial is refused, and nothing is told.
#[derive(Drop)]
struct Silent {
    faults: u64,
    ticks: u64,
}

impl Logged for Silent {
    ghost log = { λ w. None };

    ghost faults = { λ w. w.faults };

    ghost top = { λ w. 0 };
}

impl Wire for Silent {
    fn next(&mut self, _wants: &Wants) -> Event {
        if self.ticks == 0 {
            return Event::Stop;
        }
        self.ticks -= 1;
        Event::Tick(784_111_777)
    }

    fn read(&mut self, _id: u64, _buf: &mut [u8]) -> Result<Got, WireFault> {
        Ok(Got::NotYet)
    }

    fn write(&mut self, _id: u64, _bytes: &[u8]) -> Result<usize, WireFault> {
        Ok(0)
    }

    fn listen(&mut self, _door: &Door<'_>) -> Result<(), WireFault> {
        Ok(())
    }

    fn dial(&mut self, _host: &[u8], _port: u16) -> Result<u64, WireFault> {
        self.faults = self.faults.saturating_add(1);
        Err(WireFault)
    }

    fn close(&mut self, _id: u64) {}

    fn note(&mut self, _note: &Note<'_>) {}

    fn log_reply(&mut self, _reply: &Replied<'_>) {}

    fn print(&mut self, _bytes: &[u8]) {}

    fn config(&mut self, alloc: Global, _name: &str) -> Result<Octets, ConfigFault> {
        match Octets::copy(alloc, b"proxyPort = 8123\n") {
            Ok(text) => Ok(text),
            Err(OutOfMemory) => Err(ConfigFault::OutOfMemory),
        }
    }
}

/// No file can be changed, and none is there.
impl Disk for Silent {
    fn root(&mut self, _folder: &[u8]) {}

    fn names(&mut self, alloc: Global) -> Result<Vec<Name>, NamesFault> {
        Ok(Vec::new(alloc))
    }

    fn length(&mut self, _name: &Name) -> Result<u64, DiskFault> {
        Ok(0)
    }

    fn read(&mut self, _name: &Name, _at: u64, _buf: &mut [u8]) -> Result<usize, DiskFault> {
        Ok(0)
    }

    fn draft(&mut self, _bytes: &[u8]) -> Result<(), DiskFault> {
        self.faults = self.faults.saturating_add(1);
        Err(DiskFault)
    }

    fn sync_draft(&mut self) -> Result<(), DiskFault> {
        self.faults = self.faults.saturating_add(1);
        Err(DiskFault)
    }

    fn publish(&mut self, _name: &Name) -> Result<(), DiskFault> {
        self.faults = self.faults.saturating_add(1);
        Err(DiskFault)
    }

    fn write(&mut self, _name: &Name, _at: u64, _bytes: &[u8]) -> Result<(), DiskFault> {
        self.faults = self.faults.saturating_add(1);
        Err(DiskFault)
    }

    fn sync(&mut self, _name: &Name) -> Result<(), DiskFault> {
        self.faults = self.faults.saturating_add(1);
        Err(DiskFault)
    }

    fn remove(&mut self, _name: &Name) -> Result<(), DiskFault> {
        self.faults = self.faults.saturating_add(1);
        Err(DiskFault)
    }
}

/// How many bytes came, over any wire.
fn count_read<W: World>(world: &mut W, id: u64, buf: &mut [u8]) -> Result<usize, WireFault>
    requires room { 0 < length buf.old }
    requires is_there { Told (W.log world.old) (IsOpen id) }
    ensures within { IfOk result (λ n. n ≤ length buf.new) }
    ensures top { W.top world.new ≡ W.top world.old }
{
    match Wire::read(world, id, buf)? {
        Got::Bytes(n) => {
            prove!(n <= buf.len());
            Ok(n)
        }
        Got::End | Got::NotYet => Ok(0),
    }
}

/// How many ticks came before the end, or before 1,000 of them.
fn count_ticks<W: World>(world: &mut W, wants: &Wants) -> u64 {
    let mut ticks: u64 = 0;
    for _ in 0..1_000 {
        match world.next(wants) {
            Event::Stop => return ticks,
            Event::Tick(_) => ticks = ticks.saturating_add(1),
            Event::Accepted(_)
            | Event::Readable(_)
            | Event::Writable(_)
            | Event::Reached(_)
            | Event::Broken(_) => {}
        }
    }
    ticks
}

/// Three ticks come and no byte.
fn hears_nothing(silent: &mut Silent) -> bool {
    let ticks = count_ticks(silent, &wants(true, &[], &[]));
    ticks == 3 && count_read(silent, 1, &mut [0; 4]) == Ok(0)
}

/// Nothing is written, and nobody is reached.
fn takes_nothing(silent: &mut Silent) -> bool {
    let door = Door {
        address: 0,
        port: 8123,
        allowed: &[],
        access_log: AccessLog::Nowhere,
    };
    let is_written = Wire::write(silent, 1, b"GET") == Ok(0);
    let is_heard = silent.listen(&door) == Ok(());
    is_written && is_heard && silent.dial(b"h", 80) == Err(WireFault)
}

fn is_configured(silent: &mut Silent, alloc: Global) -> bool {
    match silent.config(alloc, "polipo.conf") {
        Ok(text) => text.as_slice() == b"proxyPort = 8123\n".as_slice(),
        Err(_) => false,
    }
}

fn tells_nothing(silent: &mut Silent) {
    silent.note(&Note::Cut(1, Cause::Stop));
    silent.print(b"polipo: out of memory\n");
    silent.close(1);
}

#[test]
fn a_wire_that_tells_nothing_serves_any_caller(rt: HostRuntime) {
    let mut silent = Silent {
        faults: 0,
        ticks: 3,
    };
    assert!(rt; hears_nothing(&mut silent));
    assert!(rt; takes_nothing(&mut silent));
    tells_nothing(&mut silent);
    assert_eq!(rt; silent.faults, 1);
    assert!(rt; is_configured(&mut silent, rt.alloc()));
}

impl Shelf for Silent {
    fn publish_if(&mut self, name: &Name) -> Option<Result<(), DiskFault>> {
        Some(self.publish(name))
    }

    fn write_if(&mut self, name: &Name, at: u64, bytes: &[u8]) -> Option<Result<(), DiskFault>> {
        Some(Disk::write(self, name, at, bytes))
    }
}

const SILENCE: &[(Call<'static>, Gives<'static>)] = &[
    (Call::Root(b"polipo-cache"), Gives::Done),
    (Call::Names, Gives::Names(b"")),
    (Call::Whole(b'0'), Gives::Bytes(b"")),
    (Call::Draft(b"HTTP/1.1 200 OK\r\n"), Gives::Fault),
    (Call::SyncDraft, Gives::Fault),
    (Call::Publish(b'0'), Gives::Fault),
    (Call::Write(b'0', 8192, b"\x01"), Gives::Fault),
    (Call::Sync(b'0'), Gives::Fault),
    (Call::Remove(b'0'), Gives::Fault),
];

#[test]
fn a_disk_that_tells_nothing_serves_any_caller(rt: HostRuntime) {
    let mut silent = Silent {
        faults: 0,
        ticks: 0,
    };
    assert_eq!(rt; first_unlike(&mut silent, rt.alloc(), SILENCE), None);
    assert_eq!(rt; silent.faults, 6);
}
