// Step 1: what is left to ask on a connection (RFC 2616, sections 5 and 8.2).
ghost use Rattle.std.specs.Prelude.{◌≡◌, slice_get};
ghost use Rattle.pp_flow.specs.Changes.{entry_of};
ghost use Rattle.pp_state.specs.Asking.{asked_next, asking, has_heard_body, is_being_asked, is_left, is_there_to_ask, owed_answer};
ghost use Rattle.pp_state.specs.Ends.{AreSeated};

use crate::state::State;
use pp_flow::{Entry, Exchange};

/// More exchanges than stand in a line.
const LINE: usize = 16;

/// What is asked next on a connection.
#[derive(Clone, Copy)]
pub enum Asking {
    /// So many bytes are left of the text of this exchange.
    Text(u64, usize),
    /// So many bytes are left of the body of its request, which the client at this place sends.
    Body(u64, u64, usize),
}

impl State {
    /// What is asked next on the connection: of the first exchange of which anything is left to ask.
    pub fn asking(&self, k: u64) -> Option<Asking>
        ensures { AreSeated self.entry.now → result ≡ asking k self.entry.now.seats.items self.entry.now.flow }
    {
        let number = self.asked_next(k)?;
        let entry = self.flow.entry(number)?;
        if !entry.is_outstanding() {
            let left = entry.text.len().saturating_sub(entry.errand.asked);
            return Some(Asking::Text(number, left));
        }
        let i = self.seat_for(&entry.exchange)?;
        Some(Asking::Body(number, entry.errand.body_left, i))
    }

    /// The first exchange of the line of which anything is left to ask.
    fn asked_next(&self, k: u64) -> Option<u64>
        ensures { result ≡ asked_next k self.entry.now.flow }
    {
        for place in 0..LINE {
            let number = self.flow.line(k, place)?;
            if self.is_left(number) {
                return Some(number);
            }
        }
        None
    }

    fn is_left(&self, number: u64) -> bool
        ensures { result ≡ is_left (entry_of number self.entry.now.flow) }
    {
        match self.flow.entry(number) {
            None => false,
            Some(entry) => is_being_asked(entry),
        }
    }

    /// The exchange whose answer is due on the connection: the first of its line, asked whole.
    pub fn owed_answer(&self, k: u64) -> Option<Exchange>
        ensures { result ≡ owed_answer k self.entry.now.flow }
    {
        let number = self.flow.line(k, 0)?;
        let entry = self.flow.entry(number)?;
        if is_being_asked(entry) {
            None
        } else {
            Some(entry.exchange)
        }
    }

    /// Whether there is anything to ask on the connection now.
    pub fn has_to_ask(&self, k: u64) -> bool
        ensures { AreSeated self.entry.now → result ≡ is_there_to_ask self.entry.now.seats.items (asking k self.entry.now.seats.items self.entry.now.flow) }
    {
        match self.asking(k) {
            None => false,
            Some(Asking::Text(_, _)) => true,
            Some(Asking::Body(_, _, i)) => self.has_heard_body(i),
        }
    }

    /// The client at this place sent bytes of its request's body that were not asked.
    fn has_heard_body(&self, i: usize) -> bool
        ensures { result ≡ has_heard_body (slice_get self.entry.now.seats.items i) }
    {
        match self.seats.get(i) {
            None => false,
            Some(seat) => !seat.client.body().is_empty(),
        }
    }
}

/// Of its text, or of the body of its request, bytes are left to ask.
fn is_being_asked(entry: &Entry) -> bool
    ensures { result ≡ is_being_asked entry.now }
{
    !entry.is_outstanding() || entry.errand.body_left > 0
}
