// An entry of the log.
use crate::{DiskOp, Image, Name, Remark, Wants};
use pp_text::Octets;

/// What happened: one entry of the log. A life begins with `Woke`, a turn with `Waits`.
#[derive(Drop)]
pub enum Happening {
    /// The program started, over a folder with these files.
    Woke(Image),
    /// It waits for an event.
    Waits(Wants),
    /// The clock, in whole seconds since 1970.
    Clock(u64),
    /// A client was accepted.
    Opened(u64),
    CanRead(u64),
    CanWrite(u64),
    /// A client sent these bytes.
    Heard(u64, Octets),
    /// A client will send no more, or is lost.
    HungUp(u64),
    /// The client, how many bytes were offered, and those that it took.
    Said(u64, u64, Octets),
    /// The proxy closed a client's connection.
    Shut(u64),
    /// A connection to this host and port was begun, and has this number.
    Dialled(u64, Octets, u16),
    /// No connection to this host and port could be begun.
    Undialled(Octets, u16),
    /// A dialled connection was reached.
    Reached(u64),
    /// An origin will send no more.
    Ended(u64),
    /// The connection to an origin was refused, or is lost.
    Broke(u64),
    /// An origin took these bytes.
    Asked(u64, Octets),
    /// An origin sent these bytes.
    Got(u64, Octets),
    /// The proxy closed a connection to an origin.
    Dropped(u64),
    /// A read found nothing.
    NoneYet(u64),
    /// An operation that changes the disk was begun.
    Began(DiskOp),
    /// It was done, or failed.
    Did(DiskOp, bool),
    /// The length or the bytes of the file of this name could not be read.
    Unread(Name),
    /// A note of the proxy's own.
    Noted(Remark),
    /// The proxy uses this folder.
    Rooted(Octets),
    /// The folder was listed, or could not be.
    Listed(bool),
    /// The proxy asked to listen on this port, and whether it may.
    Listens(u16, bool),
    /// The file of this name was read as configuration, or could not be read.
    Configured(Octets, Option<Octets>),
    Printed(Octets),
    /// The proxy is to end.
    Stopped,
}
