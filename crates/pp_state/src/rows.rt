// The row of an exchange's key, and how it is cleared (RFC 2616, section 13.10).
ghost use Rattle.std.specs.Prelude.{◌≡◌, map};
ghost use Rattle.pp_state.specs.Ends.{cleared_row, numbers_of, parts, KeepsRest, all_decided_anew, decided_anew, known_version};
ghost use Rattle.pp_state.specs.Keys.{cleared, key_of};
ghost use Rattle.pp_cache.specs.Memory.{retired_at};
ghost use Rattle.pp_cache.specs.Notes.{unnoted};
ghost use Rattle.pp_state.specs.Known.{row_for};

use crate::state::State;
use pp_cache::{Cache, Noted};
use pp_flow::Exchange;
use pp_objects::ObjectId;
use pp_seats::{Brought, Seat};
use pp_valid::Version;

impl State {
    /// The row of the exchange's key is not known any more.
    #[tactic(auto, using(crate::proofs::SeatsLemmas::anew_numbers))]
    pub fn clear_row(&mut self, e: &Exchange)
        ensures is { parts self.new ≡ cleared_row e.now.number (parts self.old) }
        ensures cache { self.new.cache ≡ cleared (key_of e.now.number self.old.flow) self.old.cache }
        ensures numbers { numbers_of self.new.seats.items ≡ numbers_of self.old.seats.items }
        ensures rest { KeepsRest self.old self.new }
    {
        if let Some(key) = self.flow.key(e.number) {
            clear_key(&mut self.cache, &mut self.refused, &mut self.seats, key);
        }
    }

    /// The row of the exchange's key, and its version.
    pub fn row_of(&self, e: &Exchange) -> Option<(ObjectId, Version)>
        ensures { result ≡ row_for e.now.number (parts self.entry.now) }
    {
        let key = self.flow.key(e.number)?;
        let id = self.cache.current(key)?;
        let row = self.cache.row(id)?;
        Some((id, *row.version))
    }

    /// The version of the row of the exchange's key.
    pub fn known_version(&self, e: &Exchange) -> Option<Version>
        ensures { result ≡ known_version e.now.number (parts self.entry.now) }
    {
        self.cache.version(self.flow.key(e.number)?)
    }
}

/// A row is not known any more: the next response of its key is the first.
pub fn clear_key(cache: &mut Cache, refused: &mut Noted, seats: &mut [Seat], key: &[u8])
    ensures cache { cache.new ≡ retired_at key.now cache.old }
    ensures refused { refused.new ≡ unnoted key.now refused.old }
    ensures seats { seats.new ≡ all_decided_anew key.now refused.old seats.old }
{
    cache.retire(key);
    forget_refused(refused, seats, key);
}

/// The row that memory was refused for is replaced or cleared: who waited for it is decided again.
pub fn forget_refused(refused: &mut Noted, seats: &mut [Seat], key: &[u8])
    ensures refused { refused.new ≡ unnoted key.now refused.old }
    ensures seats { seats.new ≡ all_decided_anew key.now refused.old seats.old }
{
    if refused.has(key) {
        decide_all_anew(seats, key);
    }
    refused.forget(key);
}

fn decide_all_anew(seats: &mut [Seat], key: &[u8])
    ensures { seats.new ≡ map (decided_anew key.now) seats.old }
{
    for seat in seats.iter_mut() {
        decide_anew(seat, key);
    }
}

fn decide_anew(seat: &mut Seat, key: &[u8])
    ensures { seat.new ≡ decided_anew key.now seat.old }
{
    if !seat.has_key(key) {
        return;
    }
    match seat.brought {
        Brought::Refused => seat.brought = Brought::Useless,
        Brought::Awaited
        | Brought::Useless
        | Brought::Joins(_, _)
        | Brought::Passes(_)
        | Brought::TooWide => {}
    }
}
