// What the clients, the origins and the cache stand on, behind the connections that are open.
ghost use Rattle.std.specs.Prelude.{◌≡◌, slice_get};
ghost use Rattle.pp_desk.specs.Closings.{peer_numbers};

use pp_client::Room;
use pp_peers::Peers;
use pp_state::State;

/// The most clients at once.
pub const MAX_CLIENTS: usize = 256;

/// One read, in bytes.
pub const READ_LEN: usize = 32_768;

/// The memory of the proxy.
#[derive(Drop)]
pub struct Desk {
    /// The clients, the exchanges and the cache, with the settings and the clock.
    pub state: State,
    /// The connections to origins, in the order in which they were dialled.
    pub peers: Peers,
    /// What is read.
    pub buffer: Vec<u8>,
    /// The data of a response in what was read.
    pub data: Vec<u8>,
    /// What is said at once.
    pub room: Box<Room>,
    /// A file of the disk, as it is laid out to be written.
    pub file: Vec<u8>,
    /// A client that was accepted in this turn, and for whom there is no memory.
    pub turned_away: Option<u64>,
    /// The operator keeps a log of replies.
    pub logs_replies: bool,
}

impl Desk {
    /// The number of the connection that stands there.
    pub fn number_at(&self, place: usize) -> Option<u64>
        ensures { result ≡ slice_get (peer_numbers self.entry.now.peers) place }
    {
        Some(self.peers.as_slice().get(place)?.number)
    }
}
