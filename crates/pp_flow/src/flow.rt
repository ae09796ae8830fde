// The exchanges that are there.
ghost use Rattle.std.specs.Borrow.{sem};
ghost use Rattle.std.specs.Prelude.{◌≡◌, ◌+◌, ◌<◌, ◌≤◌, ◌++◌, ◌∷◌, [], length, option_map, option_copied, slice_get, true, is_some, option_and_then, vec_capacity, ◌↔◌, ℕ, IfOk, IsSomeAnd, IsTrue};
ghost use Rattle.std.specs.List.{find, list_any};
ghost use Rattle.pp_objects.specs.Instances.{in_slot, is_there};
ghost use Rattle.pp_flow.specs.Entries.{begun_with, bound_to, is_asked_by, is_number, moved_by, nobodys, to_come};
ghost use Rattle.pp_flow.specs.Lending.{LendsErrand};
ghost use Rattle.pp_flow.specs.Changes.{changed, entry_of, first_of, is_after, line_of, placed_on, unplaced, without};

use crate::entry::{Aim, Entry, Exchange};
use crate::errand::Errand;
use crate::lists::{
    bind_in, came_in, enter, entry_at, find_in, first_after, first_asked, index_of, leave_in,
    line_at, take_out,
};
use arrayvec::ArrayVec;
use pp_ask::ASK_LEN;
use pp_objects::ObjectId;
use pp_text::OutOfMemory;
use std::alloc::Global;
use std::marker::Model;

/// Exchanges that there may be.
pub const EXCHANGES: usize = 1024;

/// The exchanges that are there. A call that takes a number walks the exchanges before that one.
#[derive(Drop)]
pub struct Flow {
    waiting: Vec<Box<Entry>>,
    placed: Vec<Box<Entry>>,
    spare: Vec<Box<Entry>>,
    begun: u64,
}

impl Model for Flow {
    ghost use Rattle.pp_flow.specs.Changes.{Exchanges};

    ghost Value = { Exchanges };

    ghost use Rattle.pp_flow.specs.Inside.{exchanges_in, IsSound};

    ghost view = { exchanges_in };

    ghost invariant = { IsSound };
}

impl Flow {
    /// No exchanges, and the room for all that there may be.
    pub fn new(alloc: Global) -> Result<Flow, OutOfMemory>
        ensures { IfOk result (λ f. f ≡ record { waiting = []; placed = []; begun = 0 }) }
    {
        let waiting = Vec::with_capacity(alloc, EXCHANGES)?;
        let placed = Vec::with_capacity(alloc, EXCHANGES)?;
        let spare = boxes(alloc)?;
        Ok(Flow {
            waiting,
            placed,
            spare,
            begun: 0,
        })
    }

    /// How many exchanges there are.
    pub fn len(&self) -> usize
        ensures count { result ≡ length self.now.waiting + length self.now.placed }
        ensures few { result ≤ 1024 }
    {
        self.waiting.len() + self.placed.len()
    }

    /// How many were begun: the number of the next.
    pub fn begun(&self) -> u64
        ensures { result ≡ self.now.begun }
    {
        self.begun
    }

    /// An exchange begins, which the client's current request asks. Answers its number.
    pub fn begin(&mut self, client: u64, key: &[u8], aim: Aim, errand: &Errand, text: &[u8]) -> u64
        requires few { length self.old.waiting + length self.old.placed < 1024 }
        requires short { length key.now ≤ 8192 }
        requires fits { length text.now ≤ ASK_LEN }
        requires numbers { self.old.begun < 18446744073709551615 }
        ensures number { result ≡ self.old.begun }
        ensures begun { self.new ≡ record self.old { waiting = self.old.waiting ++ begun_with self.old.begun client key.now aim errand.now text.now ∷ []; begun = self.old.begun + 1 } }
    {
        let number = self.begun;
        let Some(mut entry) = self.spare.pop() else {
            return number;
        };
        entry.begin(number, client, key, aim, errand, text);
        self.waiting.push_reserved(entry);
        self.begun += 1;
        number
    }

    /// The exchange with this number. `None` exactly where it is not there.
    pub fn get(&self, number: u64) -> Option<&Exchange>
        ensures { option_map (λ e. e.now) result ≡ option_map (λ e. e.exchange) (entry_of number self.now) }
    {
        match self.entry(number) {
            Some(entry) => Some(&entry.exchange),
            None => None,
        }
    }

    /// What the exchange with this number asks, lent to be changed. `None` exactly where it is not there.
    pub fn errand_mut(&mut self, number: u64) -> Option<&mut Errand>
        ensures* writes_back { sem 𝓛 (LendsErrand self.entry number result) }
        ensures value { option_map (λ e. e.now) result ≡ option_map (λ e. e.errand) (entry_of number self.old) }
    {
        match index_of(&self.waiting, number) {
            Some(index) => Some(&mut self.waiting[index].errand),
            None => match index_of(&self.placed, number) {
                Some(index) => Some(&mut self.placed[index].errand),
                None => None,
            },
        }
    }

    /// The exchange at this place of all: first those without a place, then those with one. `None` exactly behind the
    /// last.
    pub fn at(&self, index: usize) -> Option<&Entry>
        ensures { option_map (λ e. e.now) result ≡ slice_get (self.now.waiting ++ self.now.placed) index }
    {
        if index < self.waiting.len() {
            Some(&self.waiting[index])
        } else {
            entry_at(&self.placed, index - self.waiting.len())
        }
    }

    /// The key of the exchange with this number. `None` exactly where it is not there.
    pub fn key(&self, number: u64) -> Option<&[u8]>
        ensures { option_copied result ≡ option_map (λ e. e.key.items) (entry_of number self.now) }
    {
        match self.entry(number) {
            Some(entry) => Some(entry.key.as_slice()),
            None => None,
        }
    }

    /// The exchange with this number, with what it asks, its key and its text. `None` exactly where it is not there.
    pub fn entry(&self, number: u64) -> Option<&Entry>
        ensures { option_map (λ e. e.now) result ≡ entry_of number self.now }
    {
        match find_in(&self.waiting, number) {
            Some(entry) => Some(entry),
            None => find_in(&self.placed, number),
        }
    }

    /// Whether the exchange with this number is there without a place.
    pub fn waits(&self, number: u64) -> bool
        ensures { result ≡ is_some (find (is_number number) self.now.waiting) }
    {
        find_in(&self.waiting, number).is_some()
    }

    /// Whether the exchange with this number is there with a place.
    pub fn has_place(&self, number: u64) -> bool
        ensures { result ≡ is_some (find (is_number number) self.now.placed) }
    {
        find_in(&self.placed, number).is_some()
    }

    /// The exchange gets a place: it is the last in the line of this connection.
    pub fn set_place(&mut self, number: u64, connection: u64)
        requires { is_some (find (is_number number) self.old.waiting) ≡ true }
        ensures { self.new ≡ placed_on connection number self.old }
    {
        if let Some(mut entry) = take_out(&mut self.waiting, number) {
            entry.set_place(Some(connection));
            self.placed.push_reserved(entry);
        }
    }

    /// The place of the exchange is taken away, before its final head came.
    pub fn unplace(&mut self, number: u64)
        requires { is_some (find (is_number number) self.old.placed) ≡ true }
        ensures { self.new ≡ unplaced number self.old }
    {
        if let Some(mut entry) = take_out(&mut self.placed, number) {
            entry.set_place(None);
            enter(&mut self.waiting, entry);
        }
    }

    /// The exchange's request leaves it: it is nobody's from now on.
    pub fn leave(&mut self, number: u64)
        ensures { self.new ≡ record self.old { waiting = changed number nobodys self.old.waiting; placed = changed number nobodys self.old.placed } }
    {
        leave_in(&mut self.waiting, number);
        leave_in(&mut self.placed, number);
    }

    /// The number of the exchange that the client's current request asks: the first without a place, or else
    /// the first with one. `None` exactly without one.
    pub fn asked_by(&self, client: u64) -> Option<u64>
        ensures { result ≡ option_map (λ e. e.exchange.number) (first_of (find (is_asked_by client) self.now.waiting) (find (is_asked_by client) self.now.placed)) }
    {
        match first_asked(&self.waiting, client) {
            Some(number) => Some(number),
            None => first_asked(&self.placed, client),
        }
    }

    /// The final head of the exchange came, and its body belongs there. Nothing changes where it has no
    /// place.
    pub fn bind(&mut self, number: u64, to: Option<(ObjectId, u64, u64, bool)>)
        ensures { self.new ≡ record self.old { placed = changed number (bound_to to) self.old.placed } }
    {
        bind_in(&mut self.placed, number, to);
    }

    /// The bytes of the exchange's span that are still to come. `None` exactly where it has no place, or
    /// is not bound to a span.
    pub fn to_come(&self, number: u64) -> Option<u64>
        ensures { result ≡ option_and_then to_come (find (is_number number) self.now.placed) }
    {
        match find_in(&self.placed, number) {
            Some(entry) => entry.to_come(),
            None => None,
        }
    }

    /// So many bytes of the exchange's span came.
    pub fn came(&mut self, number: u64, n: u64)
        requires { IsSomeAnd (option_and_then to_come (find (is_number number) self.old.placed)) (λ left. n ≤ left) }
        ensures { self.new ≡ record self.old { placed = changed number (moved_by n) self.old.placed } }
    {
        came_in(&mut self.placed, number, n);
    }

    /// The exchange is over: it is out.
    pub fn over(&mut self, number: u64)
        ensures { self.new ≡ record self.old { waiting = without number self.old.waiting; placed = without number self.old.placed } }
    {
        if let Some(entry) = take_out(&mut self.waiting, number) {
            self.spare.push_reserved(entry);
        }
        if let Some(entry) = take_out(&mut self.placed, number) {
            self.spare.push_reserved(entry);
        }
    }

    /// The number of the exchange at this place in the line of a connection. `None` exactly where the
    /// line is not so long. Walks the exchanges that have a place.
    pub fn line(&self, connection: u64, index: usize) -> Option<u64>
        ensures { result ≡ slice_get (line_of connection self.now.placed) index }
    {
        line_at(&self.placed, connection, index)
    }

    /// The first exchange without a place that began after that one. `None` exactly without one.
    pub fn waiting(&self, after: Option<u64>) -> Option<u64>
        ensures { result ≡ option_map (λ e. e.exchange.number) (find (is_after after) self.now.waiting) }
    {
        first_after(&self.waiting, after)
    }
}

/// Room for all exchanges that there may be.
fn boxes(alloc: Global) -> Result<Vec<Box<Entry>>, OutOfMemory>
    ensures len { IfOk result (λ v. length v.items ≡ 1024) }
    ensures room { IfOk result (λ v. 1024 ≤ vec_capacity v) }
{
    let mut boxes = Vec::with_capacity(alloc, EXCHANGES)?;
    for _index in 0..EXCHANGES {
        match Box::new(alloc, Entry::empty()) {
            Ok(entry) => boxes.push_reserved(entry),
            Err(_) => return Err(OutOfMemory),
        }
    }
    Ok(boxes)
}
