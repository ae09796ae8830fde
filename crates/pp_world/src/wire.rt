// Connections, the clock and the console, as the proxy sees them.
ghost use Rattle.std.specs.Prelude.{◌≡◌, ◌<◌, ◌≤◌, ℕ, List, Option, IsTrue, length, IfOk, OnErr};
ghost use Rattle.std.specs.Result.{result_unwrap_or};
ghost use Rattle.pp_world.specs.declared.happening.Happening.{Happening};
ghost use Rattle.pp_world.specs.Connections.{IsOpen};
ghost use Rattle.pp_world.specs.Log.{Appends, AppendsAll, Rises, Told};
ghost use Rattle.pp_world.specs.Wire.{ConfigCause, IsNewNumber, IsNumbered, IsOnDialled, IsWithin, close_happening, config_happenings, dial_happening, is_wanted, listen_happening, note_happening, print_happening, read_happening, top_after, wait_happenings, write_happening};

use crate::{Disk, Door, Event, Got, Note, Replied, Wants};
use pp_text::Octets;
use std::alloc::Global;
use thiserror::Error;

/// A socket failed.
#[derive(Clone, Copy, Debug, PartialEq, Eq, Error)]
#[error("a socket failed")]
pub struct WireFault;

/// Why a configuration file gave no text.
#[derive(Clone, Copy, Debug, PartialEq, Eq, Error)]
pub enum ConfigFault {
    /// The file is not there, or could not be read.
    #[error("the configuration could not be read")]
    Unreadable,
    /// Memory was asked for and not given.
    #[error("memory was asked for and not given")]
    OutOfMemory,
}

/// How many bytes of a configuration file are read at most: one more than a configuration may have,
/// so that a longer one shows.
pub const CONFIG_READ_LEN: usize = 65_537;

/// What contracts know of an outside.
pub trait Logged {
    /// What happened so far, where the outside tells it. A log that is told may become untold, and
    /// never the reverse.
    ghost log: { Self → Option (List Happening) };

    /// How often the outside failed. The count never falls.
    ghost faults: { Self → ℕ };

    /// The greatest number that a connection was given so far, or 0. It never falls.
    ghost top: { Self → ℕ };
}

/// Connections, the clock and the console. Clients are accepted, origins are dialled; both have
/// numbers of one series, and none is given twice.
pub trait Wire: Logged {
    /// Waits for an event. Where all numbers were given, none is accepted any more.
    fn next(&mut self, wants: &Wants) -> Event
        ensures told { AppendsAll (Self.log self.old) (Self.log self.new) (λ l. wait_happenings wants.now result) }
        ensures wanted { IsTrue (is_wanted wants.now result) }
        ensures dialled { Told (Self.log self.old) (IsOnDialled result) }
        ensures faults { Self.faults self.old ≤ Self.faults self.new }
        ensures number { IsNumbered (Self.top self.old) result }
        ensures top { Self.top self.new ≡ top_after (Self.top self.old) result };

    /// Reads what came, into the front of the buffer. What stands behind it may change too.
    fn read(&mut self, id: u64, buf: &mut [u8]) -> Result<Got, WireFault>
        requires room { 0 < length buf.old }
        requires is_there { Told (Self.log self.old) (IsOpen id) }
        ensures told { Appends (Self.log self.old) (Self.log self.new) (read_happening id result buf.new) }
        ensures within { IfOk result (IsWithin (length buf.new)) }
        ensures faults { Self.faults self.old ≤ Self.faults self.new }
        ensures cause { OnErr result (Rises (Self.log self.new) (Self.faults self.old) (Self.faults self.new)) }
        ensures top { Self.top self.new ≡ Self.top self.old };

    /// Offers bytes, and answers how many were taken from their front: perhaps none.
    fn write(&mut self, id: u64, bytes: &[u8]) -> Result<usize, WireFault>
        requires offered { 0 < length bytes.now }
        requires is_there { Told (Self.log self.old) (IsOpen id) }
        ensures told { Appends (Self.log self.old) (Self.log self.new) (write_happening id bytes.now result) }
        ensures within { IfOk result (λ n. n ≤ length bytes.now) }
        ensures faults { Self.faults self.old ≤ Self.faults self.new }
        ensures cause { OnErr result (Rises (Self.log self.new) (Self.faults self.old) (Self.faults self.new)) }
        ensures top { Self.top self.new ≡ Self.top self.old };

    /// Listens for clients at this door.
    fn listen(&mut self, door: &Door<'_>) -> Result<(), WireFault>
        ensures told { Appends (Self.log self.old) (Self.log self.new) (λ l. listen_happening door.now.port result) }
        ensures faults { Self.faults self.old ≤ Self.faults self.new }
        ensures cause { OnErr result (Rises (Self.log self.new) (Self.faults self.old) (Self.faults self.new)) }
        ensures top { Self.top self.new ≡ Self.top self.old };

    /// Begins a connection to an origin, and answers its number; `next` reports whether it was
    /// reached. Where all numbers were given, it fails.
    fn dial(&mut self, host: &[u8], port: u16) -> Result<u64, WireFault>
        ensures told { Appends (Self.log self.old) (Self.log self.new) (λ l. dial_happening host.now port result) }
        ensures number { IfOk result (IsNewNumber (Self.top self.old)) }
        ensures faults { Self.faults self.old ≤ Self.faults self.new }
        ensures cause { OnErr result (Rises (Self.log self.new) (Self.faults self.old) (Self.faults self.new)) }
        ensures top { Self.top self.new ≡ result_unwrap_or result (Self.top self.old) };

    /// Closes a connection.
    fn close(&mut self, id: u64)
        requires is_there { Told (Self.log self.old) (IsOpen id) }
        ensures told { Appends (Self.log self.old) (Self.log self.new) (close_happening id) }
        ensures faults { Self.faults self.old ≤ Self.faults self.new }
        ensures top { Self.top self.new ≡ Self.top self.old };

    /// Puts a note on record.
    fn note(&mut self, note: &Note<'_>)
        ensures told { Appends (Self.log self.old) (Self.log self.new) (λ l. note_happening note.now) }
        ensures faults { Self.faults self.old ≤ Self.faults self.new }
        ensures top { Self.top self.new ≡ Self.top self.old };

    /// Writes to the console.
    fn print(&mut self, bytes: &[u8])
        ensures told { Appends (Self.log self.old) (Self.log self.new) (λ l. print_happening bytes.now) }
        ensures faults { Self.faults self.old ≤ Self.faults self.new }
        ensures top { Self.top self.new ≡ Self.top self.old };

    /// Tells the operator of a reply, in the log that was named with the door. This is no happening, and never
    /// fails: of what cannot be written the operator is told once.
    fn log_reply(&mut self, reply: &Replied<'_>)
        ensures told { Self.log self.new ≡ Self.log self.old }
        ensures faults { Self.faults self.new ≡ Self.faults self.old }
        ensures top { Self.top self.new ≡ Self.top self.old };

    /// Reads a configuration file, up to `CONFIG_READ_LEN` bytes. Where memory was refused, nothing
    /// has happened.
    fn config(&mut self, alloc: Global, name: &str) -> Result<Octets, ConfigFault>
        ensures told { AppendsAll (Self.log self.old) (Self.log self.new) (λ l. config_happenings name.now result) }
        ensures within { IfOk result (λ text. length text ≤ CONFIG_READ_LEN) }
        ensures faults { Self.faults self.old ≤ Self.faults self.new }
        ensures cause { ConfigCause (Self.log self.new) (Self.faults self.old) (Self.faults self.new) result }
        ensures top { Self.top self.new ≡ Self.top self.old };
}

/// All that the proxy runs over: connections, the clock, the console, and a folder of files. Both
/// have a `read` and a `write`, which a caller over a `World` names by its trait.
pub trait World: Wire + Disk {}

impl<W: Wire + Disk> World for W {}
