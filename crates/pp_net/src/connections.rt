// The connections that are there, each in the place that its number names.
ghost use Rattle.std.specs.Prelude.{◌≡◌, ◌<◌, ◌≤◌, ◌-◌, ◌*◌, ◌%◌, ◌^◌, IsTrue, IfSome, IfNone};
ghost use Rattle.pp_world.specs.Wire.{IsNewNumber, has_number};

use crate::connection::{Connection, Direction, Phase};
use mio::event::Event as Report;
use std::alloc::{AllocError, Global};
use std::net::SocketAddr;

/// How many connections there may be: clients, origins, and closed clients that linger.
pub const PLACES: u64 = 512;

/// The least number above `top` that names this place, if 64 bits hold one.
pub fn next_number(top: u64, place: u64) -> Option<u64>
    requires { place < PLACES }
    ensures new { IfSome result (IsNewNumber top) }
    ensures place { IfSome result (λ id. id % PLACES ≡ place) }
    ensures none { IfNone result (2 ^ 64 - 2 * PLACES < top) }
{
    (top / PLACES + 1).checked_mul(PLACES)?.checked_add(place)
}

fn place_of(id: u64) -> u64
    ensures { result < PLACES }
{
    id % PLACES
}

/// How many places stand between the place of the connection that was served last and this one's, round
/// all places: it is that one's own turn last.
fn distance(last: u64, id: u64) -> u64 {
    (place_of(id) + (PLACES - 1) - place_of(last)) % PLACES
}

#[derive(Drop)]
pub struct Connections {
    places: Vec<Option<Connection>>,
    // The places of those that can be read, and maybe of others, each once: who was read last stands behind all others.
    readable: Vec<u64>,
    // A dial may have ended that nobody looked at yet.
    has_answer: bool,
}

impl Connections {
    pub fn new(alloc: Global) -> Result<Connections, AllocError> {
        let mut places = Vec::with_capacity(alloc, PLACES as usize)?;
        for _ in 0..PLACES {
            places.push(None)?;
        }
        Ok(Connections {
            places,
            readable: Vec::with_capacity(alloc, PLACES as usize)?,
            has_answer: false,
        })
    }

    /// The place for one more connection: one that is free, or else that of the client that lingers longest, which gives way
    /// once another is put there.
    pub fn next_place(&self) -> Option<u64>
        ensures { IfSome result (λ place. place < PLACES) }
    {
        match self.places.iter().position(|place| place.is_none()) {
            Some(place) => Some(place_of(place as u64)),
            None => self.longest_lingering().map(place_of),
        }
    }

    fn longest_lingering(&self) -> Option<u64> {
        let mut longest = None;
        for connection in self.places.iter().flatten() {
            if let Phase::Lingering(since) = connection.phase()
                && longest.is_none_or(|(least, _)| since < least)
            {
                longest = Some((since, connection.id()));
            }
        }
        longest.map(|(_, id)| id)
    }

    /// Puts a connection into the place of its number; who lingered there is dropped.
    pub fn put(&mut self, connection: Connection) {
        let id = connection.id();
        if let Some(place) = self.places.get_mut(place_of(id) as usize) {
            *place = Some(connection);
        }
        self.note_readable(place_of(id));
    }

    fn note_readable(&mut self, place: u64) {
        if self.readable_at(place).is_some() && !self.readable.as_slice().contains(&place) {
            let _ = self.readable.push(place);
        }
    }

    /// The connection of this number, unless it is closed.
    pub fn get_mut(&mut self, id: u64) -> Option<&mut Connection> {
        let connection = self.places.get_mut(place_of(id) as usize)?.as_mut()?;
        if connection.is_open(id) {
            Some(connection)
        } else {
            None
        }
    }

    fn get(&self, id: u64) -> Option<&Connection> {
        let connection = self.places.get(place_of(id) as usize)?.as_ref()?;
        if connection.is_open(id) {
            Some(connection)
        } else {
            None
        }
    }

    /// The address at which this one is dialled, and nobody answers.
    pub fn silent(&self, id: u64, now: u64) -> Option<SocketAddr> {
        match self.get(id)?.phase() {
            Phase::Dialled(dial) if dial.is_silent(now) => Some(dial.address),
            _ => None,
        }
    }

    /// Closes the connection of this number, in the second `now`. A client may linger.
    pub fn close(&mut self, id: u64, now: u64) {
        if let Some(connection) = self.get_mut(id)
            && !connection.linger(now)
        {
            self.empty(id);
        }
    }

    fn empty(&mut self, id: u64) {
        if let Some(place) = self.places.get_mut(place_of(id) as usize) {
            *place = None;
        }
    }

    /// Keeps what the system tells of a connection, whose number is the token.
    pub fn hear(&mut self, report: &Report) {
        let id = report.token().0 as u64;
        let Some(place) = self.places.get_mut(place_of(id) as usize) else {
            return;
        };
        let Some(connection) = place.as_mut() else {
            return;
        };
        connection.hear(report);
        match connection.phase() {
            Phase::Answered(_) => self.has_answer = true,
            Phase::Lingering(_) if connection.drain() => *place = None,
            _ => {}
        }
        self.note_readable(place_of(id));
    }

    /// A dialled connection whose dial has ended, and that nobody looked at yet.
    pub fn answered(&mut self) -> Option<&mut Connection> {
        if !self.has_answer {
            return None;
        }
        let found = self.places.iter_mut().flatten().find(|connection| matches!(
            connection.phase(),
            Phase::Answered(_)
        ));
        self.has_answer = found.is_some();
        found
    }

    /// Drops the clients that have lingered long enough, or that have nothing more to send.
    pub fn end_lingering(&mut self, now: u64) {
        for place in self.places.iter_mut() {
            if let Some(connection) = place.as_mut()
                && connection.is_gone(now)
            {
                *place = None;
            }
        }
    }

    /// Of these connections the one that can be written, and whose place comes first after that of `last`.
    pub fn next_writable(&self, ids: &[u64], last: u64) -> Option<u64>
        ensures { IfSome result (λ id. IsTrue (has_number id ids.now)) }
    {
        ids.iter()
            .copied()
            .filter(|id| self.is_writable(*id))
            .min_by_key(|id| distance(last, *id))
    }

    fn is_writable(&self, id: u64) -> bool {
        self.get(id)
            .is_some_and(|connection| connection.is_ready(Direction::Write))
    }

    /// Of these connections the one that can be read, and was read longest ago. There may be many of them, so only those
    /// that can be read are looked at.
    pub fn next_readable(&mut self, ids: &[u64]) -> Option<u64>
        ensures { IfSome result (λ id. IsTrue (has_number id ids.now)) }
    {
        let mut at = 0;
        for _ in 0..PLACES {
            let place = *self.readable.get(at)?;
            match self.readable_at(place) {
                None => {
                    self.readable.remove(at);
                }
                Some(id) if ids.contains(&id) => {
                    self.readable.remove(at);
                    let _ = self.readable.push(place);
                    return Some(id);
                }
                Some(_) => at += 1,
            }
        }
        None
    }

    /// The connection in this place, where it is open and can be read.
    fn readable_at(&self, place: u64) -> Option<u64> {
        let connection = self.places.get(place as usize)?.as_ref()?;
        let id = connection.id();
        if connection.is_open(id) && connection.is_ready(Direction::Read) {
            Some(id)
        } else {
            None
        }
    }
}
