// Step 1: a request that came, and a reply that was said (RFC 2616, sections 5 and 6).
ghost use Rattle.std.specs.Prelude.{◌≡◌, ◌||◌, slice_get};
ghost use Rattle.pp_state.specs.Hearing.{is_passed_whole, is_said, is_said_in, is_whole, is_without_memory, lacks_key, lacks_key_at, with_end};
ghost use Rattle.pp_state.specs.Places.{IsChangedAt};
ghost use Rattle.pp_state.specs.Ends.{changed_at, numbers_of};
ghost use Rattle.pp_seats.specs.Seats.{IsRead, passed_in};

use crate::state::State;
use pp_seats::{PassedEnd, Seat};

impl State {
    /// What the client sent is read as a request, where there is none. Where memory was refused for its key, this life goes astray.
    pub fn look(&mut self, i: usize)
        ensures is { IsChangedAt IsRead i self.old.seats.items self.new.seats.items }
        ensures numbers { numbers_of self.new.seats.items ≡ numbers_of self.old.seats.items }
        ensures astray { self.new.is_astray ≡ (self.old.is_astray || lacks_key_at i self.new.seats.items) }
        ensures rest { record self.new { seats = self.old.seats; is_astray = self.old.is_astray } ≡ self.old }
    {
        self.read(i);
        self.is_astray = self.is_astray || lacks_key_at(&self.seats, i);
    }

    #[tactic(auto, using(crate::proofs::PlacesLemmas::same_numbers))]
    fn read(&mut self, i: usize)
        ensures is { IsChangedAt IsRead i self.old.seats.items self.new.seats.items }
        ensures numbers { numbers_of self.new.seats.items ≡ numbers_of self.old.seats.items }
        ensures rest { record self.new { seats = self.old.seats } ≡ self.old }
    {
        if let Some(seat) = self.seats.get_mut(i) {
            seat.look(self.alloc);
        }
    }

    /// All of the client's reply was said. One that is passed may end without a byte.
    #[tactic(auto, using(crate::proofs::PlacesLemmas::same_numbers))]
    pub fn is_said(&mut self, i: usize) -> bool
        ensures said { result ≡ is_said_in (slice_get self.old.seats.items i) }
        ensures is { self.new.seats.items ≡ changed_at i with_end self.old.seats.items }
        ensures numbers { numbers_of self.new.seats.items ≡ numbers_of self.old.seats.items }
        ensures rest { record self.new { seats = self.old.seats } ≡ self.old }
    {
        match self.seats.get_mut(i) {
            None => false,
            Some(seat) => is_said(seat),
        }
    }
}

/// Memory was refused for the key of the request of the client at this place.
fn lacks_key_at(seats: &[Seat], i: usize) -> bool
    ensures { result ≡ lacks_key_at i seats.now }
{
    match seats.get(i) {
        None => false,
        Some(seat) => lacks_key(seat),
    }
}

fn lacks_key(seat: &Seat) -> bool
    ensures { result ≡ lacks_key seat.now }
{
    match seat.front.asked() {
        None => false,
        Some(asked) => asked.key.is_none() && is_without_memory(asked.refusal),
    }
}

fn is_without_memory(refusal: Option<u16>) -> bool
    ensures { result ≡ is_without_memory refusal }
{
    match refusal {
        None => false,
        Some(status) => status == 500,
    }
}

fn is_said(seat: &mut Seat) -> bool
    ensures said { result ≡ is_said seat.old }
    ensures is { seat.new ≡ with_end seat.old }
{
    if seat.is_closing || !seat.has_begun() {
        return false;
    }
    if is_passed_whole(seat) && seat.client.has_begun() {
        seat.client.took(0);
    }
    !seat.client.has_begun()
}

fn is_passed_whole(seat: &Seat) -> bool
    ensures { result ≡ is_passed_whole (passed_in seat.now.brought) }
{
    match seat.passed() {
        None => false,
        Some(passed) => is_whole(passed.end),
    }
}

fn is_whole(end: PassedEnd) -> bool
    ensures { result ≡ is_whole end }
{
    match end {
        PassedEnd::Coming | PassedEnd::Short => false,
        PassedEnd::Whole => true,
    }
}
