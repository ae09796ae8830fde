// What the poller reports, and what it is asked for.
ghost use Rattle.std.specs.Prelude.{◌≡◌};

use arrayvec::ArrayVec;

/// What `next` reports: one event, which the proxy handles to its end before it asks for another.
#[derive(Clone, Copy, Debug, PartialEq, Eq)]
pub enum Event {
    /// The proxy is to end.
    Stop,
    /// The clock, in whole seconds since 1970.
    Tick(u64),
    /// A client connected, and its connection has this number.
    Accepted(u64),
    /// There is something to read on this connection: bytes, an end or a fault.
    Readable(u64),
    /// This connection can take bytes.
    Writable(u64),
    /// This dialled connection was reached.
    Reached(u64),
    /// This dialled connection was refused, or is lost.
    Broken(u64),
}

/// Who is at the other end of a connection.
#[derive(Clone, Copy, Debug, PartialEq, Eq)]
pub enum Side {
    /// A client, which was accepted.
    Client,
    /// An origin, which was dialled.
    Origin,
}

/// The interest set of one wait.
#[derive(Drop)]
pub struct Wants {
    /// Whether a client may be accepted.
    pub accept: bool,
    /// The connections that are to be reported where they can be read.
    pub read: ArrayVec<u64, 320>,
    /// The connections that are to be reported where they can be written.
    pub write: ArrayVec<u64, 320>,
}

impl Wants {
    /// The same interest set again.
    pub fn copy(&self) -> Wants
        ensures { result ≡ self.now }
    {
        let mut read = ArrayVec::new();
        let _ = read.try_extend_from_slice(self.read.as_slice());
        let mut write = ArrayVec::new();
        let _ = write.try_extend_from_slice(self.write.as_slice());
        Wants {
            accept: self.accept,
            read,
            write,
        }
    }
}

/// What a read found.
#[derive(Clone, Copy, Debug, PartialEq, Eq)]
pub enum Got {
    /// So many bytes, at least one, now stand at the front of the buffer.
    Bytes(usize),
    /// The other side sent its last byte before, and will send no more.
    End,
    /// Nothing has come yet.
    NotYet,
}
