// The connections that are there.
ghost use Rattle.std.specs.Borrow.{sem};
ghost use Rattle.std.specs.Prelude.{◌≡◌, ◌≤◌, ◌<◌, ◌+◌, ◌++◌, ◌∷◌, [], length, map, filter, option_map, slice_get, true, false, IfOk};
ghost use Rattle.std.specs.List.{find, list_any};
ghost use Rattle.pp_peers.specs.Lending.{LendsPeer, LendsPeerAt, LendsPipe};
ghost use Rattle.pp_peers.specs.Peers.{first_over, goes_on, is_number, load_of as load_in, place_in, unused, with_load, without};
ghost use Rattle.pp_peers.specs.Placing.{place};

use crate::placing::{Limits, Placed, place_among};
use arrayvec::ArrayVec;
use pp_pipe::Pipe;
use pp_text::OutOfMemory;
use std::alloc::Global;
use std::marker::Model;

/// Connections that there may be.
pub const PEERS: usize = 64;

/// Bytes that the name of a host may have.
pub const HOST_ROOM: usize = 255;

/// What a connection carries, as its pipe tells.
#[derive(Clone, Copy, Debug, PartialEq, Eq)]
pub struct Load {
    /// The asks that were pushed and neither withdrawn nor answered whole.
    pub asks: usize,
    /// Those of them whose text was sent.
    pub outstanding: usize,
    /// Whether it brought a whole HTTP/1.1 response that did not say `close`.
    pub may_pipeline: bool,
}

/// A connection to an origin.
#[derive(Drop)]
pub struct Peer {
    pub number: u64,
    /// In lower case.
    pub host: ArrayVec<u8, HOST_ROOM>,
    pub port: u16,
    pub pipe: Pipe,
    pub is_reached: bool,
    /// A whole final response came.
    pub has_brought: bool,
    /// Whether it goes on behind the response that comes.
    pub stays: bool,
    /// Its cause to be closed has come, and it counts as closed.
    pub is_closing: bool,
    /// For its idle time.
    pub mark: u64,
    /// It stood in the wants, or was not reached, at the last wait.
    pub has_waited: bool,
}

/// The connections that are there, in the order in which they were dialled. One that is closing is there until it is closed.
#[derive(Drop)]
pub struct Peers {
    peers: Vec<Peer>,
    /// The pipes that no connection has.
    spare: Vec<Pipe>,
}

impl Model for Peers {
    ghost use Rattle.std.specs.Prelude.{◌≡◌, ◌≤◌, ◌+◌, List, length, vec_capacity};
    ghost use Rattle.pp_peers.specs.declared.peers.Peer.{Peer as Connection};

    ghost Value = { List Connection };

    ghost view = { λ p. p.peers.items };

    ghost invariant = { λ p. (length p.peers.items + length p.spare.items ≡ 64) × (64 ≤ vec_capacity p.peers) × (64 ≤ vec_capacity p.spare) };
}

impl Peers {
    /// No connections, and the memory of all that there may be.
    pub fn new(alloc: Global) -> Result<Peers, OutOfMemory>
        ensures { IfOk result (λ p. p ≡ []) }
    {
        let peers = Vec::with_capacity(alloc, PEERS)?;
        let mut spare = Vec::with_capacity(alloc, PEERS)?;
        for number in 0..PEERS {
            let pipe = Pipe::new(alloc, number as u64)?;
            spare.push_reserved(pipe);
        }
        Ok(Peers { peers, spare })
    }

    /// How many connections there are.
    pub fn len(&self) -> usize
        ensures count { result ≡ length self.now }
        ensures few { result ≤ 64 }
    {
        self.peers.len()
    }

    /// Where the next ask for this host and port goes. An ask that goes `alone` has a connection for
    /// itself, a new one: its method is not known to be safe to repeat, or it has a body (RFC 2616,
    /// section 8.1.2.2), or it authenticates its connection (RFC 4559, section 6). Asks are placed behind all closings,
    /// when none of the connections is closing.
    pub fn place(&self, limits: Limits, host: &[u8], port: u16, alone: bool) -> Placed
        ensures { result ≡ place limits host.now port alone (map with_load self.now) }
    {
        place_among(&self.peers, limits, host, port, alone)
    }

    /// A connection with this number was dialled in this second, to this host and port: nothing was asked there.
    pub fn add(&mut self, number: u64, host: &[u8], port: u16, now: u64)
        requires few { length self.old < 64 }
        requires short { length host.now ≤ 255 }
        requires new { list_any (is_number number) self.old ≡ false }
        ensures { self.new ≡ self.old ++ unused number host.now port now ∷ [] }
    {
        let mut name = ArrayVec::new();
        let _ = name.try_extend_from_slice(host);
        let mut pipe = self.spare.take_last();
        pipe.restart(number);
        self.peers.push_reserved(Peer {
            number,
            host: name,
            port,
            pipe,
            is_reached: false,
            has_brought: false,
            stays: false,
            is_closing: false,
            mark: now,
            has_waited: false,
        });
    }

    /// Whether the connection with this number is there.
    pub fn has(&self, number: u64) -> bool
        ensures { result ≡ list_any (is_number number) self.now }
    {
        self.peers.iter().any(|peer| peer.number == number)
    }

    /// The connection with this number is gone. Nothing changes where it is not there.
    #[tactic(auto, using(crate::proofs::Finding::removed_at, crate::proofs::Finding::none_removed))]
    pub fn gone(&mut self, number: u64)
        ensures { self.new ≡ without number self.old }
    {
        let index = place_of(&self.peers, number);
        if index < self.peers.len() {
            let Peer { pipe, .. } = self.peers.remove(index);
            self.spare.push_reserved(pipe);
        }
    }

    /// Those that are closing are gone; at the end all are.
    pub fn drop_closing(&mut self, is_end: bool)
        ensures { self.new ≡ filter (goes_on is_end) self.old }
    {
        for _peer in 0..self.peers.len() {
            if !self.drop_first(is_end) {
                break;
            }
        }
    }

    /// The first of them is gone. Whether there was one.
    #[tactic(auto, using(crate::proofs::Dropping::dropped, crate::proofs::Dropping::none_dropped))]
    fn drop_first(&mut self, is_end: bool) -> bool
        ensures left { filter (goes_on is_end) self.new ≡ filter (goes_on is_end) self.old }
        ensures fewer { result ≡ true → length self.new + 1 ≡ length self.old }
        ensures none { result ≡ false → filter (goes_on is_end) self.old ≡ self.new }
    {
        let index = first_over(&self.peers, is_end);
        if index < self.peers.len() {
            let Peer { pipe, .. } = self.peers.remove(index);
            self.spare.push_reserved(pipe);
            true
        } else {
            false
        }
    }

    /// All that are there.
    pub fn as_slice(&self) -> &[Peer]
        ensures { result.now ≡ self.now }
    {
        self.peers.as_slice()
    }

    /// The connection with this number. `None` exactly where it is not there.
    pub fn get(&self, number: u64) -> Option<&Peer>
        ensures { option_map (λ p. p.now) result ≡ find (is_number number) self.now }
    {
        for peer in &self.peers {
            if peer.number == number {
                return Some(peer);
            }
        }
        None
    }

    /// The same, lent.
    #[tactic(auto, using(crate::proofs::Finding::none_found))]
    pub fn get_mut(&mut self, number: u64) -> Option<&mut Peer>
        ensures* writes_back { sem 𝓛 (LendsPeer self.entry number result) }
        ensures value { option_map (λ p. p.now) result ≡ find (is_number number) self.old }
    {
        let index = place_of(&self.peers, number);
        let peer = self.peers.get_mut(index)?;
        Some(peer)
    }

    /// The connection that stands there, lent.
    pub fn at_mut(&mut self, place: usize) -> Option<&mut Peer>
        ensures* writes_back { sem 𝓛 (LendsPeerAt self.entry place result) }
        ensures value { option_map (λ p. p.now) result ≡ slice_get self.old place }
    {
        self.peers.get_mut(place)
    }

    /// The pipe of the connection with this number, lent. `None` exactly where it is not there.
    #[tactic(auto, using(crate::proofs::Finding::none_found))]
    pub fn pipe(&mut self, number: u64) -> Option<&mut Pipe>
        ensures* writes_back { sem 𝓛 (LendsPipe self.entry number result) }
        ensures value { option_map (λ p. p.now) result ≡ option_map (λ p. p.pipe) (find (is_number number) self.old) }
    {
        let index = place_of(&self.peers, number);
        let peer = self.peers.get_mut(index)?;
        Some(&mut peer.pipe)
    }
}

/// What a connection carries.
pub(crate) fn load_of(peer: &Peer) -> Load
    ensures { result ≡ load_in peer.now }
{
    Load {
        asks: peer.pipe.asks(),
        outstanding: peer.pipe.outstanding(),
        may_pipeline: peer.pipe.may_pipeline(),
    }
}

/// Where the connection with this number stands; behind the last where it is not there.
#[tactic(auto, using(crate::proofs::Finding::found, crate::proofs::Finding::passed, crate::proofs::Finding::not_found))]
fn place_of(peers: &[Peer], number: u64) -> usize
    ensures { result ≡ place_in number peers.now }
{
    let mut place = 0;
    for peer in peers {
        if peer.number == number {
            return place;
        }
        place += 1;
    }
    place
}

/// Where the first stands that does not go on; behind the last where all do.
#[tactic(auto, using(crate::proofs::Dropping::found, crate::proofs::Dropping::passed, crate::proofs::Dropping::not_found))]
fn first_over(peers: &[Peer], is_end: bool) -> usize
    ensures { result ≡ first_over is_end peers.now }
{
    let mut place = 0;
    for peer in peers {
        if is_end || peer.is_closing {
            return place;
        }
        place += 1;
    }
    place
}
