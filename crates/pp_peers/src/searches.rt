// The best of some connections.
ghost use Rattle.std.specs.Prelude.{◌≡◌, ◌≤◌, length, map, option_map};
ghost use Rattle.pp_peers.specs.Peers.{with_load};
ghost use Rattle.pp_peers.specs.Searches.{count_of, is_among, is_idle, is_lighter, lighter, lightest, lower, lowest_idle, takes_more};

use crate::peers::{Peer, load_of};
use pp_pipe::MAX_ASKS;

/// Which connections are meant.
#[derive(Clone, Copy)]
pub enum Among<'h> {
    All,
    /// Those to this host and port.
    Host(&'h [u8], u16),
}

pub fn count_of(peers: &[Peer], among: Among<'_>) -> usize
    ensures count { result ≡ count_of (is_among among.entry) (map with_load peers.now) }
    ensures few { result ≤ length peers.now }
{
    let mut count = 0;
    for peer in peers {
        if is_among(peer, among) {
            count += 1;
        }
    }
    count
}

/// The lowest number of those that carry nothing.
pub fn lowest_idle(peers: &[Peer], among: Among<'_>) -> Option<u64>
    ensures { result ≡ lowest_idle (is_among among.entry) (map with_load peers.now) }
{
    let mut lowest = None;
    for peer in peers {
        if is_idle(peer, among) {
            lowest = Some(lower(lowest, peer.number));
        }
    }
    lowest
}

fn lower(lowest: Option<u64>, number: u64) -> u64
    ensures { result ≡ lower lowest number }
{
    match lowest {
        Some(lowest) => lowest.min(number),
        None => number,
    }
}

/// The number of the one with the fewest outstanding asks, and the lowest number, of those that take
/// one more.
pub fn lightest(peers: &[Peer], among: Among<'_>) -> Option<u64>
    ensures { result ≡ option_map (λ w. w.1) (lightest (is_among among.entry) (map with_load peers.now)) }
{
    let mut lightest = None;
    for peer in peers {
        if takes_more(peer, among) {
            lightest = Some(lighter(lightest, (load_of(peer).outstanding, peer.number)));
        }
    }
    match lightest {
        Some(weight) => Some(weight.1),
        None => None,
    }
}

/// Outstanding asks, and the number.
type Weight = (usize, u64);

fn lighter(lightest: Option<Weight>, weight: Weight) -> Weight
    ensures { result ≡ lighter lightest weight }
{
    match lightest {
        Some(other) if !is_lighter(weight, other) => other,
        Some(_) | None => weight,
    }
}

fn is_lighter(weight: Weight, other: Weight) -> bool
    ensures { result ≡ is_lighter weight other }
{
    weight.0 < other.0 || (weight.0 == other.0 && weight.1 < other.1)
}

fn is_among(peer: &Peer, among: Among<'_>) -> bool
    ensures { result ≡ is_among among.entry (with_load peer.now) }
{
    match among {
        Among::All => true,
        Among::Host(host, port) => peer.host.as_slice() == host && peer.port == port,
    }
}

fn is_idle(peer: &Peer, among: Among<'_>) -> bool
    ensures { result ≡ is_idle (is_among among.entry) (with_load peer.now) }
{
    is_among(peer, among) && load_of(peer).asks == 0
}

fn takes_more(peer: &Peer, among: Among<'_>) -> bool
    ensures { result ≡ takes_more (is_among among.entry) (with_load peer.now) }
{
    let load = load_of(peer);
    let takes = load.may_pipeline && load.asks < MAX_ASKS;
    is_among(peer, among) && takes
}
