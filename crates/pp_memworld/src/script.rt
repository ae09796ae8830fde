// What a world in memory plays.
use pp_text::Octets;

/// One step of a script. A connection goes by its number; 0 means the connection that a `Connect`
/// made last, which may wait to be accepted still. A cue for a number that is not there, or is
/// closed, does nothing.
#[derive(Drop)]
pub enum Cue {
    /// The clock, in seconds since 1970: an event itself.
    Tick(u64),
    /// A client connects, and waits to be accepted.
    Connect,
    /// A client sends these bytes.
    Say(u64, Octets),
    /// A client will send no more.
    HangUp(u64),
    /// From now on the connection takes at most so many bytes; without a window it takes all.
    Window(u64, u64),
    /// A dialled connection is reached.
    Reach(u64),
    /// A dialled connection is refused.
    Refuse(u64),
    /// An origin sends these bytes.
    Answer(u64, Octets),
    /// An origin will send no more.
    End(u64),
    /// The next read or write of this connection fails.
    Break(u64),
    /// The proxy is to end: an event itself.
    Stop,
}

/// A resource of an origin that answers by itself.
#[derive(Drop)]
pub struct Page {
    /// The host that is dialled for it.
    pub host: Octets,
    /// The target of an ask for it, as `/index.html`.
    pub path: Octets,
    /// Its entity tag with the quotes, as `"v1"`.
    pub tag: Octets,
    pub body: Octets,
}

/// The cues in their order, and the pages of the origins that answer by themselves.
#[derive(Drop)]
pub struct Script {
    pub cues: Vec<Cue>,
    pub site: Vec<Page>,
}
