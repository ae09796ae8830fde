// What the bytes behind the head of the current request are.
ghost use Rattle.std.specs.Prelude.{◌≡◌, ◌≤◌, ℕ, List, drop, length, min};
ghost use Rattle.pp_client.specs.Bodies.{body_by, kept, later, shortened, unread, unwanted};

use pp_framing::{BodyRule, FramingFault};

/// What comes next of the client.
///
/// ```text
/// Dropped -> Unread    the head of a request was heard whole              [hear, took]
/// Dropped -> Over      the same of one whose body has no length           [hear, took]
/// Unread  -> Dropped   nobody reads the rest of the body                  [drop_body, took]
/// Dropped -> Over      what stands is no request, and its page was said   [took]
/// ```
#[derive(Clone, Copy, Debug, PartialEq, Eq)]
pub(crate) enum Body {
    /// So many bytes of the current request's body were neither taken nor dropped.
    Unread(u64),
    /// So many bytes are still to come of a body that nobody reads. Then a request is to come.
    Dropped(u64),
    /// No request follows: all that comes is dropped.
    Over,
}

impl Body {
    /// The body behind the head of a request, which is delimited so.
    pub(crate) fn of(rule: Result<BodyRule, FramingFault>) -> Body
        ensures { result ≡ body_by rule }
    {
        match rule {
            Ok(BodyRule::Length(n)) => Body::Unread(n),
            Ok(BodyRule::Empty | BodyRule::Chunked | BodyRule::ToEnd) => Body::Unread(0),
            Err(_) => Body::Over,
        }
    }

    /// How many of the next bytes are dropped, where so many come.
    pub(crate) fn lost(self, len: usize) -> usize
        ensures kept { (bytes : List ℕ) → length bytes ≡ len → drop result bytes ≡ kept self bytes }
        ensures within { result ≤ len }
    {
        match self {
            Body::Unread(_) => 0,
            Body::Dropped(n) => { if n < len as u64 { n as usize } else { len } }
            Body::Over => len,
        }
    }

    /// The same once so many bytes came.
    pub(crate) fn later(self, len: usize) -> Body
        ensures { result ≡ later self len }
    {
        match self {
            Body::Dropped(n) => Body::Dropped(n.saturating_sub(len as u64)),
            Body::Unread(_) | Body::Over => self,
        }
    }

    /// How many of the bytes that are there are the current request's body, where so many are.
    pub(crate) fn here(self, len: usize) -> usize
        ensures here { result ≡ min (unread self) len }
        ensures within { result ≤ len }
    {
        match self {
            Body::Unread(n) => { if n < len as u64 { n as usize } else { len } }
            Body::Dropped(_) | Body::Over => 0,
        }
    }

    /// The same once so many bytes of the body were taken.
    pub(crate) fn shortened(self, len: usize) -> Body
        ensures { result ≡ shortened self len }
    {
        match self {
            Body::Unread(n) => Body::Unread(n.saturating_sub(len as u64)),
            Body::Dropped(_) | Body::Over => self,
        }
    }

    /// The same once nobody reads the rest of the body, where so many bytes of it and of what follows
    /// are there.
    pub(crate) fn unwanted(self, len: usize) -> Body
        ensures { result ≡ unwanted self len }
    {
        match self {
            Body::Unread(n) => Body::Dropped(n.saturating_sub(len as u64)),
            Body::Dropped(_) | Body::Over => self,
        }
    }
}
