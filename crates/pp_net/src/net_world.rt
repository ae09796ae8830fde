// The world of real sockets: its tables and counts, and how it asks the system.
ghost use Rattle.std.specs.Prelude.{◌≡◌, ◌<◌, ◌≤◌, None, IfOk, IfSome, unwrap_or};
ghost use Rattle.std.specs.Result.{result_unwrap_or};
ghost use Rattle.pp_world.specs.Log.{Rises};
ghost use Rattle.pp_world.specs.Wire.{IsNewNumber};

use crate::access::Access;
use crate::connection::{Connection, Phase};
use crate::connections::{Connections, next_number};
use crate::dial::Dial;
use crate::door::OpenDoor;
use crate::folder::Folder;
use crate::hosts::Hosts;
use crate::rotation::Rotation;
use crate::seconds::Seconds;
use crate::visit::Visit;
use mio::net::TcpStream;
use mio::{Events, Interest, Poll, Token};
use pp_world::{Door, Logged, WireFault};
use std::alloc::{AllocError, Global};
use std::io;
use std::io::ErrorKind;
use std::net::Net;
use std::rt::Runtime;
use std::time::Duration;
use thiserror::Error;

/// How many reports one question to the system brings at most.
const REPORTS: usize = 256;

/// Why there is no world of sockets.
#[derive(Clone, Copy, Debug, PartialEq, Eq, Error)]
pub enum NetFault {
    /// The system gave no poller.
    #[error("the system gave no poller")]
    NoPoller,
    /// Memory was asked for and not given.
    #[error("memory was asked for and not given")]
    OutOfMemory,
}

/// Sockets, the clock, the console and files, as the runtime `R` gives them. Clients come over IPv4; an origin is dialled over
/// IPv4, and over IPv6 where it has no such address or none that answers.
///
/// The log is not told. The count of faults rises at each fault of a socket, a file, the clock or the
/// console, but not for what befalls a connection that is closed.
#[derive(Drop)]
pub struct NetWorld<R: Drop> {
    pub(crate) rt: R,
    poll: Poll,
    reports: Events,
    pub(crate) door: Option<OpenDoor>,
    pub(crate) access: Access,
    pub(crate) connections: Connections,
    pub(crate) rotation: Rotation,
    pub(crate) hosts: Hosts,
    pub(crate) folder: Folder,
    pub(crate) seconds: Seconds,
    // The second that was told last.
    pub(crate) second: Option<u64>,
    // How many events were found since the system was asked.
    pub(crate) found: u32,
    pub(crate) faults: u64,
    pub(crate) top: u64,
}

impl<R: Drop> Logged for NetWorld<R> {
    ghost log = { λ w. None };

    ghost faults = { λ w. w.faults };

    ghost top = { λ w. w.top };
}

impl<R: Runtime + AllocGlobal + Net> NetWorld<R> {
    ghost use Rattle.pp_net.specs.NetWorld.{IsNew};

    /// A world without connections. `NoPoller` comes only where the system refused one.
    pub fn new(rt: R) -> Result<NetWorld<R>, NetFault>
        ensures { IfOk result IsNew }
    {
        let Ok(poll) = Poll::new(&rt) else {
            return Err(NetFault::NoPoller);
        };
        let Ok((reports, connections, hosts)) = make_tables(rt.alloc()) else {
            return Err(NetFault::OutOfMemory);
        };
        let access = Access::nowhere(rt.alloc());
        Ok(NetWorld {
            rt,
            poll,
            reports,
            door: None,
            access,
            connections,
            rotation: Rotation::START,
            hosts,
            folder: Folder::Closed,
            seconds: Seconds::START,
            second: None,
            found: 0,
            faults: 0,
            top: 0,
        })
    }

    /// Counts a fault.
    pub(crate) fn fault(&mut self) -> WireFault
        ensures faults { self.old.faults ≤ self.new.faults }
        ensures cause { Rises None self.old.faults self.new.faults }
        ensures top { self.new.top ≡ self.old.top }
    {
        self.faults = self.faults.saturating_add(1);
        WireFault
    }

    /// The time since 1970 by the system's clock, or the last second that was told where that fails.
    pub(crate) fn clock(&mut self) -> Duration
        ensures faults { self.old.faults ≤ self.new.faults }
        ensures top { self.new.top ≡ self.old.top }
    {
        match self.rt.since_1970() {
            Ok(time) => time,
            Err(_) => {
                self.fault();
                Duration::from_secs(self.second.unwrap_or(0))
            }
        }
    }

    /// Asks the system, waits for it no longer than so, and keeps what it reports.
    pub(crate) fn ask(&mut self, patience: Duration)
        ensures faults { self.old.faults ≤ self.new.faults }
        ensures top { self.new.top ≡ self.old.top }
    {
        self.found = 0;
        if self.poll.poll(&mut self.reports, Some(patience)).is_err() {
            self.fault();
        }
        for report in self.reports.iter() {
            if report.token() != OpenDoor::TOKEN {
                self.connections.hear(report);
            } else if let Some(door) = self.door.as_mut() {
                door.knock();
            }
        }
    }

    pub(crate) fn open_door(&mut self, door: &Door<'_>) -> io::Result<()>
        ensures faults { self.new.faults ≡ self.old.faults }
        ensures top { self.new.top ≡ self.old.top }
    {
        self.door = Some(OpenDoor::open(&self.rt, self.rt.alloc(), self.poll.registry(), door)?);
        Ok(())
    }

    /// Begins a connection to a host, at the address whose turn it is.
    pub(crate) fn connect(&mut self, host: &[u8], port: u16) -> io::Result<u64>
        ensures number { IfOk result (IsNewNumber self.old.top) }
        ensures faults { self.new.faults ≡ self.old.faults }
        ensures top { self.new.top ≡ result_unwrap_or result self.old.top }
    {
        let Ok(host) = str::from_utf8(host) else {
            return Err(io::Error::from(ErrorKind::InvalidInput));
        };
        let Some(id) = self.new_number() else {
            return Err(io::Error::from(ErrorKind::ResourceBusy));
        };
        let now = self.second.unwrap_or(0);
        let address = self.hosts.address(&self.rt, host, port, now)?;
        match TcpStream::connect(&self.rt, address) {
            Ok(stream) => {
                let dial = Dial::begun(address, now);
                self.admit(id, stream, Phase::Dialled(dial), None)
            }
            Err(e) => {
                self.hosts.pass_over(address);
                Err(e)
            }
        }
    }

    /// Takes the client that waits longest, if there is a place for it.
    pub(crate) fn accept(&mut self) -> io::Result<Option<u64>>
        ensures number { IfOk result (λ accepted. IfSome accepted (IsNewNumber self.old.top)) }
        ensures faults { self.new.faults ≡ self.old.faults }
        ensures top { self.new.top ≡ unwrap_or (result_unwrap_or result None) self.old.top }
    {
        if !self.door.as_ref().is_some_and(|door| door.has_knock()) {
            return Ok(None);
        }
        let Some(id) = self.new_number() else {
            return Ok(None);
        };
        let Some(door) = self.door.as_mut() else {
            return Ok(None);
        };
        let Some((stream, address)) = door.accept()? else {
            return Ok(None);
        };
        let visit = Some(Visit::of(address));
        let id = self.admit(id, stream, Phase::Accepted, visit)?;
        Ok(Some(id))
    }

    // Registers a connection under this number, once and for both directions.
    fn admit(
        &mut self,
        id: u64,
        stream: TcpStream,
        phase: Phase,
        visit: Option<Visit>,
    ) -> io::Result<u64>
        ensures number { IfOk result (λ given. given ≡ id) }
        ensures faults { self.new.faults ≡ self.old.faults }
        ensures top { self.new.top ≡ result_unwrap_or result self.old.top }
    {
        let mut stream = stream;
        stream.set_nodelay(true)?;
        let both = Interest::READABLE | Interest::WRITABLE;
        self.poll
            .registry()
            .register(&mut stream, Token(id as usize), both)?;
        self.connections
            .put(Connection::new(id, stream, phase, visit));
        self.top = id;
        Ok(id)
    }

    // A number above all that were given, which names a place for one more.
    fn new_number(&self) -> Option<u64>
        ensures { IfSome result (IsNewNumber self.now.top) }
    {
        let place = self.connections.next_place()?;
        next_number(self.top, place)
    }
}

fn make_tables(alloc: Global) -> Result<(Events, Connections, Hosts), AllocError> {
    let reports = Events::with_capacity(alloc, REPORTS)?;
    let connections = Connections::new(alloc)?;
    let hosts = Hosts::new(alloc)?;
    Ok((reports, connections, hosts))
}
