// The other ends of all connections, and what the cues bring to them.
ghost use Rattle.std.specs.Prelude.{◌≡◌, ◌<◌, ◌≤◌, true, false, [], length, take, IfSome, IsSome, OnOk, None};
ghost use Rattle.pp_world.specs.Wire.{IsWithin, has_number};

use crate::Page;
use crate::peer::{Change, Peer};
use pp_text::OutOfMemory;
use pp_world::Got;
use std::alloc::Global;
use std::collections::BTreeMap;

/// What is to be reported of a dialled connection.
#[derive(Clone, Copy, Debug, PartialEq, Eq)]
pub(crate) enum News {
    Reached(u64),
    Refused(u64),
}

impl News {
    ghost use Rattle.pp_memworld.specs.Traffic.{news_id};

    pub(crate) fn id(self) -> u64
        ensures { result ≡ news_id self }
    {
        match self {
            News::Reached(id) | News::Refused(id) => id,
        }
    }
}

/// What a connection is wanted for.
#[derive(Clone, Copy, Debug, PartialEq, Eq)]
pub(crate) enum Interest {
    Read,
    Write,
}

#[derive(Drop)]
pub(crate) struct Traffic {
    alloc: Global,
    /// The other ends of the connections that have a number and are not closed.
    peers: BTreeMap<u64, Peer>,
    /// The clients that connected and wait to be accepted.
    waiting: Vec<Peer>,
    /// The number of the client that was accepted last.
    last_client: Option<u64>,
    /// What was not reported yet, in the order in which it came.
    news: Vec<News>,
}

impl Traffic {
    ghost use Rattle.pp_memworld.specs.Peer.{IsFresh, IsReadBy, IsWrittenBy, count_of, found, taken, unread};
    ghost use Rattle.pp_memworld.specs.Traffic.{NoneLeaves, OthersStay, is_broken_at, peer_at};

    pub(crate) fn new(alloc: Global) -> Traffic
        ensures { result.peers.entries ≡ [] }
    {
        Traffic {
            alloc,
            peers: BTreeMap::new(alloc),
            waiting: Vec::new(alloc),
            last_client: None,
            news: Vec::new(alloc),
        }
    }

    pub(crate) fn is_waiting(&self) -> bool {
        !self.waiting.is_empty()
    }

    /// The next that is to be reported.
    pub(crate) fn first_news(&self) -> Option<News> {
        self.news.first().copied()
    }

    /// The first was reported.
    pub(crate) fn forget_news(&mut self)
        ensures { self.new.peers ≡ self.old.peers }
    {
        if !self.news.is_empty() {
            self.news.remove(0);
        }
    }

    /// Whether the next read or write of this connection fails.
    pub(crate) fn is_broken(&self, id: u64) -> bool
        ensures { result ≡ is_broken_at self.now.peers id }
    {
        match self.peers.get(&id) {
            Some(peer) => peer.is_broken(),
            None => false,
        }
    }

    /// The lowest of these numbers whose connection is ready for it.
    pub(crate) fn lowest(&self, numbers: &[u64], interest: Interest) -> Option<u64>
        ensures { IfSome result (λ id. has_number id numbers.now ≡ true) }
    {
        let mut lowest: Option<u64> = None;
        for id in numbers {
            if self.is_ready(*id, interest) && is_below(*id, lowest) {
                lowest = Some(*id);
            }
        }
        lowest
    }

    fn is_ready(&self, id: u64, interest: Interest) -> bool {
        match (self.peers.get(&id), interest) {
            (Some(peer), Interest::Read) => peer.is_readable(),
            (Some(peer), Interest::Write) => peer.is_writable(),
            (None, _) => false,
        }
    }

    /// A client connects, and waits to be accepted.
    pub(crate) fn connect(&mut self) -> Result<(), OutOfMemory>
        ensures { self.new.peers ≡ self.old.peers }
    {
        match self.waiting.push(Peer::new(self.alloc, None)) {
            Ok(()) => Ok(()),
            Err(_) => Err(OutOfMemory),
        }
    }

    /// The first that waits has this number from now on; where none waits, one connects now.
    pub(crate) fn accept(&mut self, id: u64) -> Result<(), OutOfMemory>
        ensures accepted { OnOk result (IsSome (peer_at self.new.peers id)) }
        ensures others { OthersStay id self.old.peers self.new.peers }
        ensures none_leaves { NoneLeaves self.old.peers self.new.peers }
    {
        let peer = if self.waiting.is_empty() {
            Peer::new(self.alloc, None)
        } else {
            self.waiting.remove(0)
        };
        self.last_client = Some(id);
        match self.peers.insert(id, peer) {
            Ok(_) => Ok(()),
            Err(_) => Err(OutOfMemory),
        }
    }

    /// An origin was dialled, and has this number; the origin of a page is reached at once.
    pub(crate) fn dial(&mut self, id: u64, page: Option<usize>) -> Result<(), OutOfMemory>
        ensures fresh { OnOk result (IsFresh (peer_at self.new.peers id)) }
        ensures broken { OnOk result (is_broken_at self.new.peers id ≡ false) }
        ensures others { OthersStay id self.old.peers self.new.peers }
    {
        if page.is_some() {
            self.report(News::Reached(id))?;
        }
        match self.peers.insert(id, Peer::new(self.alloc, page)) {
            Ok(_) => Ok(()),
            Err(_) => Err(OutOfMemory),
        }
    }

    /// Something is to be reported of a dialled connection.
    pub(crate) fn report(&mut self, news: News) -> Result<(), OutOfMemory>
        ensures { self.new.peers ≡ self.old.peers }
    {
        match self.news.push(news) {
            Ok(()) => Ok(()),
            Err(_) => Err(OutOfMemory),
        }
    }

    pub(crate) fn close(&mut self, id: u64)
        ensures gone { peer_at self.new.peers id ≡ None }
        ensures others { OthersStay id self.old.peers self.new.peers }
    {
        self.peers.remove(&id);
        self.news.retain(|news| news.id() != id);
    }

    /// The number that a cue means, where its connection has one.
    pub(crate) fn number_of(&self, id: u64) -> Option<u64> {
        if id != 0 {
            return Some(id);
        }
        if self.waiting.is_empty() {
            self.last_client
        } else {
            None
        }
    }

    /// A cue changes the other end of a connection.
    pub(crate) fn apply(&mut self, id: u64, change: &Change<'_>) -> Result<(), OutOfMemory>
        ensures { NoneLeaves self.old.peers self.new.peers }
    {
        match self.number_of(id) {
            Some(number) => match self.peers.get_mut(&number) {
                Some(peer) => peer.apply(change),
                None => Ok(()),
            },
            None => match self.waiting.last_mut() {
                Some(peer) => peer.apply(change),
                None => Ok(()),
            },
        }
    }

    /// Reads what this connection has, into the front of the buffer.
    pub(crate) fn take(&mut self, id: u64, buf: &mut [u8]) -> Got
        requires { 0 < length buf.old }
        ensures found { result ≡ found (length buf.old) (peer_at self.old.peers id) }
        ensures within { IsWithin (length buf.new) result }
        ensures front { take (count_of result) buf.new ≡ take (count_of result) (unread (peer_at self.old.peers id)) }
        ensures read { IsReadBy (count_of result) (peer_at self.old.peers id) (peer_at self.new.peers id) }
        ensures broken { is_broken_at self.new.peers id ≡ is_broken_at self.old.peers id }
        ensures others { OthersStay id self.old.peers self.new.peers }
    {
        match self.peers.get_mut(&id) {
            Some(peer) => peer.take(buf),
            None => Got::NotYet,
        }
    }

    /// How many of so many bytes this connection takes.
    pub(crate) fn offer(&mut self, id: u64, offered: usize) -> usize
        ensures taken { result ≡ taken offered (peer_at self.old.peers id) }
        ensures within { result ≤ offered }
        ensures written { IsWrittenBy result (peer_at self.old.peers id) (peer_at self.new.peers id) }
        ensures unread { unread (peer_at self.new.peers id) ≡ unread (peer_at self.old.peers id) }
        ensures broken { is_broken_at self.new.peers id ≡ is_broken_at self.old.peers id }
        ensures others { OthersStay id self.old.peers self.new.peers }
    {
        match self.peers.get_mut(&id) {
            Some(peer) => peer.accept(offered),
            None => 0,
        }
    }

    /// An origin of the site answers what it was asked.
    pub(crate) fn answer(&mut self, id: u64, site: &[Page], bytes: &[u8]) -> Result<(), OutOfMemory>
        ensures answered { IsWrittenBy 0 (peer_at self.old.peers id) (peer_at self.new.peers id) }
        ensures broken { is_broken_at self.new.peers id ≡ is_broken_at self.old.peers id }
        ensures others { OthersStay id self.old.peers self.new.peers }
    {
        match self.peers.get_mut(&id) {
            Some(peer) => peer.answer(self.alloc, site, bytes),
            None => Ok(()),
        }
    }

    /// The fault of this connection was found.
    pub(crate) fn mend(&mut self, id: u64)
        ensures stays { IsReadBy 0 (peer_at self.old.peers id) (peer_at self.new.peers id) }
        ensures mended { is_broken_at self.new.peers id ≡ false }
        ensures others { OthersStay id self.old.peers self.new.peers }
    {
        if let Some(peer) = self.peers.get_mut(&id) {
            peer.mend();
        }
    }
}

fn is_below(id: u64, lowest: Option<u64>) -> bool {
    match lowest {
        Some(other) => id < other,
        None => true,
    }
}
