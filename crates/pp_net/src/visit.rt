// What the operator's log tells of a client: where it comes from, and since when it waits for its reply.
use std::time::{Duration, Instant};

/// A client's address, and its current request.
#[derive(Clone, Copy)]
pub struct Visit {
    /// Its address of IPv4, the first octet the highest.
    pub address: u32,
    since: Since,
}

/// Since when it waits.
///
/// ```text
/// Silent -> Heard    bytes are read of it        [hear]
/// any    -> Silent   a reply is over             [answer]
/// ```
#[derive(Clone, Copy)]
enum Since {
    /// The reply before was over then, and nothing was read since. Nothing was measured where there was none.
    Silent(Option<Instant>),
    /// The first bytes behind that reply were read then.
    Heard(Instant),
}

impl Visit {
    pub fn of(address: u32) -> Visit {
        Visit {
            address,
            since: Since::Silent(None),
        }
    }

    /// Bytes were read of it.
    pub fn hear(&mut self, now: Instant) {
        if let Since::Silent(_) = self.since {
            self.since = Since::Heard(now);
        }
    }

    /// A reply is over: how long it took, from the first bytes that were read behind the reply before, or from that reply's end
    /// where its request was read before.
    pub fn answer(&mut self, now: Instant) -> Duration {
        let since = match self.since {
            Since::Heard(then) | Since::Silent(Some(then)) => then,
            Since::Silent(None) => now,
        };
        self.since = Since::Silent(Some(now));
        now.duration_since(since)
    }
}
