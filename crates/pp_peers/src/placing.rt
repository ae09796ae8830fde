// Where an ask goes.
ghost use Rattle.std.specs.Prelude.{◌≡◌, ◌≤◌, length, map};
ghost use Rattle.pp_peers.specs.Peers.{with_load};
ghost use Rattle.pp_peers.specs.Placing.{giving_way, new_place, pipelined_place, place, shared_place};
ghost use Rattle.pp_peers.specs.Searches.{is_among};

use crate::peers::{PEERS, Peer};
use crate::searches::{Among, count_of, lightest, lowest_idle};

/// What the user lets the connections of a host be used for.
#[derive(Clone, Copy, Debug, PartialEq, Eq)]
pub struct Limits {
    /// Connections that a host may have (RFC 2616, section 8.1.4: "SHOULD limit the number").
    pub host_connections: u32,
    /// Whether an ask may go behind others that are not answered (RFC 2616, section 8.1.2.2).
    pub pipelines_asks: bool,
}

/// Where an ask goes.
#[derive(Clone, Copy, Debug, PartialEq, Eq)]
pub enum Placed {
    /// To the connection with this number.
    On(u64),
    /// To a connection that is to be dialled.
    Dial,
    /// To one that is to be dialled when the connection with this number was closed.
    CloseThenDial(u64),
    /// It waits.
    Wait,
}

/// Where an ask goes among these connections. The first that there is counts: an idle connection of
/// the host; a new one, where the host has fewer than it may, and where fewer than 64 are there or an
/// idle one gives way; where asks are pipelined, the connection of the host with the fewest outstanding
/// asks that takes one more. An ask that goes alone takes only a new one.
pub(crate) fn place_among(
    peers: &[Peer],
    limits: Limits,
    host: &[u8],
    port: u16,
    alone: bool,
) -> Placed
    requires { length peers.now ≤ 64 }
    ensures { result ≡ place limits host.now port alone (map with_load peers.now) }
{
    if alone {
        return match new_place(peers, limits.host_connections, host, port) {
            Some(placed) => placed,
            None => Placed::Wait,
        };
    }
    shared_place(peers, limits, host, port)
}

fn shared_place(peers: &[Peer], limits: Limits, host: &[u8], port: u16) -> Placed
    requires { length peers.now ≤ 64 }
    ensures { result ≡ shared_place limits host.now port (map with_load peers.now) }
{
    if let Some(number) = lowest_idle(peers, Among::Host(host, port)) {
        return Placed::On(number);
    }
    if let Some(placed) = new_place(peers, limits.host_connections, host, port) {
        return placed;
    }
    match pipelined_place(peers, limits.pipelines_asks, host, port) {
        Some(placed) => placed,
        None => Placed::Wait,
    }
}

/// Behind the asks of a connection, where asks are pipelined.
fn pipelined_place(peers: &[Peer], pipelines_asks: bool, host: &[u8], port: u16) -> Option<Placed>
    ensures { result ≡ pipelined_place pipelines_asks host.now port (map with_load peers.now) }
{
    if !pipelines_asks {
        return None;
    }
    match lightest(peers, Among::Host(host, port)) {
        Some(number) => Some(Placed::On(number)),
        None => None,
    }
}

/// A new connection, where one may be dialled and the host has fewer than `most`.
fn new_place(peers: &[Peer], most: u32, host: &[u8], port: u16) -> Option<Placed>
    requires { length peers.now ≤ 64 }
    ensures { result ≡ new_place most host.now port (map with_load peers.now) }
{
    if count_of(peers, Among::Host(host, port)) < most as usize {
        if peers.len() < PEERS {
            Some(Placed::Dial)
        } else {
            giving_way(peers, Among::All)
        }
    } else {
        giving_way(peers, Among::Host(host, port))
    }
}

/// A new connection in the place of an idle one.
fn giving_way(peers: &[Peer], among: Among<'_>) -> Option<Placed>
    ensures { result ≡ giving_way (is_among among.entry) (map with_load peers.now) }
{
    match lowest_idle(peers, among) {
        Some(number) => Some(Placed::CloseThenDial(number)),
        None => None,
    }
}
