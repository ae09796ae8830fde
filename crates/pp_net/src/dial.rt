// A dial of an origin: to which of its addresses, and since when.
use std::net::SocketAddr;

/// How long a dial has no answer before its address is taken for silent, in seconds. The system has asked at least three times by
/// then (RFC 6298, section 5: it asks anew after a second, and waits twice as long each time).
const SILENT_SECONDS: u64 = 5;

/// A dial whose end is not known yet.
#[derive(Clone, Copy)]
pub struct Dial {
    pub address: SocketAddr,
    /// The second in which it began.
    since: u64,
}

impl Dial {
    pub fn begun(address: SocketAddr, now: u64) -> Dial {
        Dial {
            address,
            since: now,
        }
    }

    /// Nobody answers there.
    pub fn is_silent(&self, now: u64) -> bool {
        now.abs_diff(self.since) >= SILENT_SECONDS
    }
}
