// One connection: its socket, whose it is and how far it came, and what the system told of it.
ghost use Rattle.std.specs.Prelude.{◌≡◌, ◌⊎◌, ◌<◌, ◌≤◌, ◌&&◌, ◌||◌, ◌==◌, false, length, IfOk};
ghost use Rattle.pp_world.specs.Wire.{IsWithin};
ghost use Rattle.pp_net.specs.Connection.{is_open_in, phase_heard};
ghost use Rattle.std.specs.Bool.{OnTrue};
ghost use Rattle.pp_net.specs.Readiness.{wakes_writer};

use crate::dial::Dial;
use crate::readiness::Readiness;
use crate::visit::Visit;
use mio::event::Event as Report;
use mio::net::TcpStream;
use pp_world::Got;
use std::io;
use std::io::{ErrorKind, Read, Write};
use std::net::Shutdown;
use std::time::Instant;

/// How long a closed client may linger, in seconds.
const LINGER_SECONDS: u64 = 5;

/// How many bytes one read of a drain takes at most.
const DRAIN_LEN: usize = 4096;

/// How many reads one drain makes at most, so that nobody holds up the others.
const DRAIN_READS: u32 = 64;

/// Whose connection it is, and how far it came.
///
/// ```text
/// Accepted -> Lingering   it is closed, and the client may still send       [linger]
/// Dialled  -> Answered    the system tells how the dial went                [hear]
/// Answered -> Reached     somebody looked how it went                       [reach]
/// Reached  -> Broken      a write failed                                    [write]
/// ```
#[derive(Clone, Copy)]
pub enum Phase {
    /// A client.
    Accepted,
    /// A client that was closed in this second. What it sends is thrown away.
    Lingering(u64),
    /// An origin that is not reached yet.
    Dialled(Dial),
    /// An origin whose dial has ended, and nobody looked yet how.
    Answered(Dial),
    /// An origin.
    Reached,
    /// An origin that takes no more. What it sent before can still be read, and its end is a fault.
    Broken,
}

/// The two ways of a connection.
#[derive(Clone, Copy, Debug, PartialEq, Eq)]
pub enum Direction {
    Read,
    Write,
}

#[derive(Drop)]
pub struct Connection {
    id: u64,
    stream: TcpStream,
    phase: Phase,
    readiness: Readiness,
    // Of a client.
    visit: Option<Visit>,
}

impl Connection {
    /// A client may have sent something already. Of an origin nothing is known before the system tells it.
    pub fn new(id: u64, stream: TcpStream, phase: Phase, visit: Option<Visit>) -> Connection
        ensures id { result.id ≡ id }
        ensures phase { result.phase ≡ phase }
    {
        let readiness = match phase {
            Phase::Accepted => Readiness::UNTRIED,
            Phase::Lingering(_)
            | Phase::Dialled(_)
            | Phase::Answered(_)
            | Phase::Reached
            | Phase::Broken => Readiness::NONE,
        };
        Connection {
            id,
            stream,
            phase,
            readiness,
            visit,
        }
    }

    pub fn id(&self) -> u64
        ensures { result ≡ self.now.id }
    {
        self.id
    }

    pub fn phase(&self) -> Phase
        ensures { result ≡ self.now.phase }
    {
        self.phase
    }

    /// Bytes were read of it, or none.
    pub fn note_read(&mut self, got: Got, now: Instant) {
        match (got, &mut self.visit) {
            (Got::Bytes(_), Some(visit)) => visit.hear(now),
            (Got::Bytes(_), None) | (Got::NotYet, _) | (Got::End, _) => {}
        }
    }

    /// What the operator's log tells of a client.
    pub fn visit_mut(&mut self) -> Option<&mut Visit> {
        self.visit.as_mut()
    }

    /// It has this number, and is not closed.
    pub fn is_open(&self, id: u64) -> bool
        ensures { result ≡ (self.now.id == id && is_open_in self.now.phase) }
    {
        self.id == id && !matches!(self.phase, Phase::Lingering(_))
    }

    pub fn is_ready(&self, direction: Direction) -> bool
        ensures read { direction ≡ Direction.Read → result ≡ self.now.readiness.read }
        ensures write { direction ≡ Direction.Write → result ≡ self.now.readiness.write }
    {
        match direction {
            Direction::Read => self.readiness.read,
            Direction::Write => self.readiness.write,
        }
    }

    /// Keeps what the system tells. A dial is over once the socket can take bytes, has failed or has ended.
    pub fn hear(&mut self, report: &Report)
        ensures phase { self.new.phase ≡ phase_heard (self.old.readiness.write || wakes_writer report.now) self.old.phase }
        ensures id { self.new.id ≡ self.old.id }
    {
        self.readiness.hear(report);
        if let Phase::Dialled(dial) = self.phase
            && self.readiness.write
        {
            self.phase = Phase::Answered(dial);
        }
    }

    /// How the dial went.
    pub fn reach(&mut self) -> io::Result<()>
        ensures phase { self.new.phase ≡ Phase.Reached }
        ensures id { self.new.id ≡ self.old.id }
    {
        self.phase = Phase::Reached;
        match self.stream.take_error()? {
            Some(error) => Err(error),
            None => Ok(()),
        }
    }

    pub fn read(&mut self, buf: &mut [u8]) -> io::Result<Got>
        requires { 0 < length buf.old }
        ensures within { IfOk result (IsWithin (length buf.new)) }
        ensures phase { self.new.phase ≡ self.old.phase }
        ensures id { self.new.id ≡ self.old.id }
    {
        match self.stream.read(buf) {
            Ok(0) if matches!(self.phase, Phase::Broken) => Err(io::Error::from(
                ErrorKind::ConnectionReset,
            )),
            Ok(0) => Ok(Got::End),
            Ok(taken) => {
                self.readiness.after_read(taken, buf.len());
                Ok(Got::Bytes(taken))
            }
            Err(e) if e.kind() == ErrorKind::WouldBlock => {
                self.readiness.read = false;
                Ok(Got::NotYet)
            }
            Err(e) if e.kind() == ErrorKind::Interrupted => Ok(Got::NotYet),
            Err(e) => Err(e),
        }
    }

    /// An origin may answer and close before it took the whole ask: a write that fails takes nothing, and
    /// what came before is read first.
    pub fn write(&mut self, bytes: &[u8]) -> io::Result<usize>
        ensures within { IfOk result (λ taken. taken ≤ length bytes.now) }
        ensures phase { (self.new.phase ≡ self.old.phase) ⊎ (self.new.phase ≡ Phase.Broken) }
        ensures id { self.new.id ≡ self.old.id }
    {
        match self.stream.write(bytes) {
            Ok(taken) => {
                self.readiness.after_write(taken, bytes.len());
                Ok(taken)
            }
            Err(e) if e.kind() == ErrorKind::WouldBlock => {
                self.readiness.write = false;
                Ok(0)
            }
            Err(e) if e.kind() == ErrorKind::Interrupted => Ok(0),
            Err(_) if matches!(self.phase, Phase::Reached | Phase::Broken) => {
                self.phase = Phase::Broken;
                self.readiness.write = false;
                Ok(0)
            }
            Err(e) => Err(e),
        }
    }

    /// Closes this side, in the second `now`. True where the socket has to stay for a while: a client that
    /// sends into a closed socket is answered with a reset, and loses what it has not read yet
    /// (RFC 7230, section 6.6). Nobody waits for what an origin still sends.
    pub fn linger(&mut self, now: u64) -> bool
        ensures { OnTrue result (self.new.phase ≡ Phase.Lingering now) }
    {
        if !matches!(self.phase, Phase::Accepted)
            || self.stream.shutdown(Shutdown::Write).is_err()
        {
            return false;
        }
        self.phase = Phase::Lingering(now);
        !self.drain()
    }

    /// It has lingered long enough, or its peer has ended.
    pub fn is_gone(&mut self, now: u64) -> bool
        ensures { OnTrue (is_open_in self.old.phase) (result ≡ false) }
    {
        match self.phase {
            Phase::Lingering(since) => now.abs_diff(since) >= LINGER_SECONDS || self.drain(),
            Phase::Accepted
            | Phase::Dialled(_)
            | Phase::Answered(_)
            | Phase::Reached
            | Phase::Broken => false,
        }
    }

    /// Throws away what the peer has sent. True where no more can come.
    pub fn drain(&mut self) -> bool
        ensures phase { self.new.phase ≡ self.old.phase }
        ensures id { self.new.id ≡ self.old.id }
    {
        let mut scratch = [0u8; DRAIN_LEN];
        for _ in 0..DRAIN_READS {
            if !self.readiness.read {
                break;
            }
            match self.read(&mut scratch) {
                Ok(Got::Bytes(_)) | Ok(Got::NotYet) => {}
                Ok(Got::End) | Err(_) => return true,
            }
        }
        false
    }
}
