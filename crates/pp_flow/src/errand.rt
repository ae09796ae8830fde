// What an exchange asks, how much of it was asked, and what becomes of the body that it brings.
ghost use Rattle.std.specs.Prelude.{◌≡◌, ◌||◌, option_map};
ghost use Rattle.pp_flow.specs.Errands.{asks_as_asked, asks_range, attempts_in, named_by};

use pp_target::Place;
use pp_valid::Tag;

/// What an origin is asked.
#[derive(Clone, Copy)]
pub enum Kind {
    Whole,
    /// From the first offset on, up to and with the last where there is one.
    Range(u64, Option<u64>),
    /// The bytes between two offsets, both inclusive, of the version with this tag.
    Hole(u64, u64, Tag),
    /// Whether the version with this tag still stands.
    Check(Tag),
    /// What the client asks, as it asks it.
    Pass,
}

impl Kind {
    /// The tag that is named.
    pub fn named(&self) -> Option<&Tag>
        ensures { option_map (λ tag. tag.now) result ≡ named_by self.now }
    {
        match self {
            Kind::Whole | Kind::Range(_, _) | Kind::Pass => None,
            Kind::Hole(_, _, tag) | Kind::Check(tag) => Some(tag),
        }
    }

    /// A part is asked for, of whatever version.
    pub fn is_range(&self) -> bool
        ensures { result ≡ asks_range self.now }
    {
        matches!(self, Kind::Range(_, _))
    }

    /// It is passed.
    pub fn is_pass(&self) -> bool
        ensures { result ≡ asks_as_asked self.now }
    {
        matches!(self, Kind::Pass)
    }
}

/// What becomes of the body of its response.
#[derive(Clone, Copy)]
pub enum Body {
    /// The head has not come.
    Pending,
    /// It joins an instance. Where the furthest follower of that stood at the last wait, or its first offset
    /// where nobody ever followed.
    Joining(u64),
    /// It is passed to the client that asked.
    Relaying,
    /// It is dropped as it comes: so many bytes were.
    Dropping(u64),
}

/// What an exchange asks, and how much of it was asked.
#[derive(Clone, Copy)]
pub struct Errand {
    /// What it asks.
    pub kind: Kind,
    /// Where the parts of its key stand.
    pub place: Place,
    /// Its first offset is not that of the client's range.
    pub is_moved: bool,
    /// It is asked once (RFC 2616, section 8.1.4).
    pub is_asked_once: bool,
    /// Whether HEAD is asked.
    pub asks_head: bool,
    /// It changes nothing at the origin (RFC 2616, section 9.1).
    pub is_safe: bool,
    /// Its request authenticates the connection, which nobody else may be asked on (RFC 4559, section 6).
    pub binds_connection: bool,
    /// It was asked without a wish for a content coding.
    pub accepts_only_identity: bool,
    /// It allows a guess of how long a response is fresh.
    pub allows_guess: bool,
    /// How many bytes of its text were asked.
    pub asked: usize,
    /// Bytes of the request's body that are still to be asked.
    pub body_left: u64,
    /// When the text was asked whole.
    pub requested: u64,
    /// What becomes of the body of its response.
    pub body: Body,
}

impl Errand {
    /// Nothing is asked.
    pub(crate) fn empty() -> Errand {
        Errand {
            kind: Kind::Whole,
            place: Place {
                host: (0, 0),
                port: 0,
                path: 0,
            },
            is_moved: false,
            is_asked_once: false,
            asks_head: false,
            is_safe: false,
            binds_connection: false,
            accepts_only_identity: false,
            allows_guess: false,
            asked: 0,
            body_left: 0,
            requested: 0,
            body: Body::Pending,
        }
    }

    /// It takes a connection for itself (RFC 2616, section 8.1.2.2).
    pub fn goes_alone(&self) -> bool
        ensures { result ≡ (self.now.is_asked_once || self.now.binds_connection) }
    {
        self.is_asked_once || self.binds_connection
    }

    /// How often it may be lost (RFC 2616, section 8.1.4).
    pub fn attempts(&self) -> u8
        ensures { result ≡ attempts_in self.now.is_asked_once }
    {
        if self.is_asked_once { 1 } else { 3 }
    }
}
