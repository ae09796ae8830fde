// What the proxy itself puts on record, beside what happens to it.
use pp_text::Octets;

/// How the proxy answers a request.
#[derive(Clone, Copy, Debug, PartialEq, Eq)]
pub enum Decision {
    /// A page of the proxy's own, with this status.
    Refuse(u16),
    /// A reply from an instance, of this span of offsets, half-open, each byte of which is held.
    Hit(u64, u64),
    /// A reply from an instance, of this span, not all of which is held: what is missing is asked for.
    Part(u64, u64),
    /// The head of the reply alone.
    Head,
    /// The status 304.
    NotModified,
    /// The status 416.
    Unsatisfiable,
    /// The origin's response to the exchange that this request began.
    Relay,
    /// An exchange that asks whether the stored instance still stands.
    Validate,
    /// An exchange that asks for what is missing.
    Fetch,
    /// An exchange whose response is passed on and not stored.
    Pass,
}

/// Why a client was closed before its reply was whole, or before it had one.
#[derive(Clone, Copy, Debug, PartialEq, Eq)]
pub enum Cause {
    /// Another version took the place of the one that was being sent.
    Superseded,
    /// The origin could not be asked for what is missing.
    Origin,
    /// A passed response ended early.
    Short,
    /// The client neither sent nor took a byte for too long.
    Idle,
    /// Memory was asked for and not given.
    Memory,
    /// The proxy ends.
    Stop,
}

/// A remark for the log, over texts that the proxy holds.
#[derive(Clone, Copy, Debug)]
pub enum Note<'a> {
    /// The client, the number of its request from 0, and what was decided for it.
    Taken(u64, u64, Decision),
    /// The client that is closed before its reply is whole, or before it has one, and why.
    Cut(u64, Cause),
    /// Key, tag, total length, and the length of the front that is kept on disk.
    Kept(&'a [u8], &'a [u8], u64, u64),
    /// The key whose entry on disk stands no more.
    Gone(&'a [u8]),
    /// The key whose row left memory for want of room.
    Forgotten(&'a [u8]),
    /// Key, tag, total length, and the number of the chunk that left memory.
    Evicted(&'a [u8], &'a [u8], u64, u64),
    /// Key, tag, total length, and the number of the chunk that was read from disk.
    Loaded(&'a [u8], &'a [u8], u64, u64),
}

/// A note as the log keeps it.
#[derive(Drop)]
pub enum Remark {
    Taken(u64, u64, Decision),
    Cut(u64, Cause),
    Kept(Octets, Octets, u64, u64),
    Gone(Octets),
    Forgotten(Octets),
    Evicted(Octets, Octets, u64, u64),
    Loaded(Octets, Octets, u64, u64),
}
