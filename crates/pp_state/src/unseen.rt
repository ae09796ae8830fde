// What nobody will see of a line, and how far a body is wanted (RFC 2616, section 8.1.4).
ghost use Rattle.std.specs.Prelude.{◌≡◌, ◌++◌, slice_get};
ghost use Rattle.pp_objects.specs.Instances.{is_same_id};
ghost use Rattle.pp_flow.specs.Brings.{is_soon};
ghost use Rattle.pp_flow.specs.Changes.{entry_of, numbers};
ghost use Rattle.pp_state.specs.Bodies.{body_by, with_body};
ghost use Rattle.pp_state.specs.Ends.{AreSeated};
ghost use Rattle.pp_state.specs.Unseen.{all_rested, bound_of, dropped_more, has_reader_near, is_kept_to, is_next_near, is_nobodys, is_unseen, is_worth_keeping, rested, unseen_on, wanted_of, with_dropped};
ghost use Rattle.pp_seats.specs.Follows.{next_of};

use crate::state::State;
use pp_flow::{Aim, Body, Entry};
use pp_objects::ObjectId;
use pp_plan::is_near;
use pp_seats::Seat;

/// Ours: what is dropped as it comes is read for so many bytes, to spare the connection.
const DROP_LIMIT: u64 = 65_536;

impl State {
    /// The first exchange of the line, where nobody will see what comes of it.
    pub fn unseen_on(&self, k: u64) -> Option<u64>
        ensures { result ≡ unseen_on k self.entry.now.seats.items self.entry.now.flow }
    {
        let number = self.flow.line(k, 0)?;
        let entry = self.flow.entry(number)?;
        if self.is_nobodys(entry) {
            Some(number)
        } else {
            None
        }
    }

    fn is_nobodys(&self, entry: &Entry) -> bool
        ensures { result ≡ is_nobodys self.entry.now.seats.items entry.now }
    {
        let e = &entry.exchange;
        let is_kept = match entry.errand.body {
            Body::Joining(wanted) => is_kept_to(self.seats.as_slice(), wanted, e.bound),
            Body::Pending | Body::Relaying | Body::Dropping(_) => false,
        };
        let is_through = matches!(e.aim, Aim::Pass);
        is_unseen(entry.errand.body, is_through, e.asker.is_some(), is_kept)
    }

    /// The head of the exchange's response came: what becomes of the body is known.
    pub fn note_body(&mut self, number: u64)
        ensures is { AreSeated self.old → self.new ≡ record self.old { flow = with_body number self.old.seats.items self.old.flow } }
        ensures rest { record self.new { flow = self.old.flow } ≡ self.old }
    {
        let Some(e) = self.exchange(number) else {
            return;
        };
        let body = body_by(e.bound, self.is_passed(&e));
        if let Some(errand) = self.flow.errand_mut(number) {
            errand.body = body;
        }
    }

    /// So many bytes more are dropped, where they are.
    pub fn note_dropped(&mut self, number: u64, count: usize)
        ensures { self.new ≡ record self.old { flow = with_dropped number count self.old.flow } }
    {
        if let Some(errand) = self.flow.errand_mut(number) {
            errand.body = dropped_more(errand.body, count as u64);
        }
    }

    /// At a wait: where the furthest follower stands is how far a body is wanted.
    pub fn note_wanted(&mut self)
        ensures { self.new ≡ record self.old { flow = all_rested self.old.awake.items self.old.seats.items self.old.flow } }
    {
        for index in 0..self.flow.len() {
            if let Some(number) = self.number_at(index) {
                self.note_wanted_of(number);
            }
        }
    }

    /// The number of the exchange at this place of all.
    fn number_at(&self, index: usize) -> Option<u64>
        ensures { result ≡ slice_get (numbers (self.entry.now.flow.waiting ++ self.entry.now.flow.placed)) index }
    {
        Some(self.flow.at(index)?.exchange.number)
    }

    fn note_wanted_of(&mut self, number: u64)
        ensures { self.new ≡ record self.old { flow = rested self.old.awake.items self.old.seats.items self.old.flow number } }
    {
        let Some(at) = self.wanted_of(number) else {
            return;
        };
        if let Some(errand) = self.flow.errand_mut(number) {
            errand.body = Body::Joining(at);
        }
    }

    /// Where the furthest follower stands of what the exchange is bound to.
    fn wanted_of(&self, number: u64) -> Option<u64>
        ensures { result ≡ wanted_of self.entry.now.awake.items self.entry.now.seats.items (bound_of (entry_of number self.entry.now.flow)) }
    {
        let (id, _, _, _) = self.flow.entry(number)?.exchange.bound?;
        self.furthest(id)
    }
}

/// What becomes of a body, by what its exchange is bound to, and whether it is passed.
fn body_by(bound: Option<(ObjectId, u64, u64, bool)>, passed: bool) -> Body
    ensures { result ≡ body_by bound passed }
{
    match bound {
        Some((_, from, _, _)) => Body::Joining(from),
        None if passed => Body::Relaying,
        None => Body::Dropping(0),
    }
}

/// What it is bound to is kept on.
fn is_kept_to(seats: &[Seat], wanted: u64, bound: Option<(ObjectId, u64, u64, bool)>) -> bool
    ensures { result ≡ is_kept_to seats.now wanted bound }
{
    match bound {
        None => false,
        Some((id, next, to, all)) => {
            is_worth_keeping(has_reader_near(seats, id, next, all), next, to, wanted)
        }
    }
}

fn dropped_more(body: Body, count: u64) -> Body
    ensures { result ≡ dropped_more count body }
{
    match body {
        Body::Dropping(before) => Body::Dropping(before.saturating_add(count)),
        Body::Pending | Body::Joining(_) | Body::Relaying => body,
    }
}

/// The next byte of a client that follows it comes soon enough.
fn has_reader_near(seats: &[Seat], id: ObjectId, from: u64, all: bool) -> bool
    ensures { result ≡ has_reader_near id from all seats.now }
{
    seats.iter().any(|seat| is_next_near(seat, id, from, all))
}

fn is_next_near(seat: &Seat, id: ObjectId, from: u64, all: bool) -> bool
    ensures { result ≡ is_next_near id from all (next_of seat.now) }
{
    match seat.next() {
        None => false,
        Some(next) => is_same(next.source, id) && is_soon(all, from, next.at),
    }
}

/// What is far ahead comes too late, but from an origin that gives no ranges.
pub fn is_soon(all: bool, from: u64, at: u64) -> bool
    ensures { result ≡ is_soon all from at }
{
    all || is_near(from, at)
}

/// They name one instance.
pub fn is_same(a: ObjectId, b: ObjectId) -> bool
    ensures { result ≡ is_same_id a b }
{
    a.slot == b.slot && a.life == b.life
}

/// What is kept has a reader near, or little of it is left, or where the last of its readers left is near, before
/// it or behind.
fn is_worth_keeping(has_reader: bool, next: u64, to: u64, wanted: u64) -> bool
    ensures { result ≡ is_worth_keeping has_reader next to wanted }
{
    has_reader || is_near(next, to) || is_near(wanted, next) && is_near(next, wanted)
}

/// Of the first exchange of a line: nobody will see what comes of it.
fn is_unseen(body: Body, is_through: bool, has_asker: bool, is_kept: bool) -> bool
    ensures { result ≡ is_unseen body is_through has_asker is_kept }
{
    match body {
        Body::Pending => is_through && !has_asker,
        Body::Joining(_) => !is_kept,
        Body::Relaying => !has_asker,
        Body::Dropping(count) => DROP_LIMIT < count,
    }
}
