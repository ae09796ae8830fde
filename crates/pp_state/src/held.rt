// What is held of a version, and what comes (RFC 7233, sections 4.1 and 4.3).
ghost use Rattle.std.specs.Prelude.{◌≡◌, ◌+◌, ◌*◌, ◌/◌, min};
ghost use Rattle.pp_state.specs.Bringing.{asks_by, asks_for, brings, filled, is_brought, is_provided, is_span_held, is_to_come, serves};

use crate::state::State;
use crate::unseen::{is_same, is_soon};
use pp_cache::CHUNK_LEN;
use pp_flow::{Aim, Entry};
use pp_objects::{ObjectId, RowView};
use pp_plan::is_near;
use pp_seats::Next;

impl State {
    /// Each offset of the half-open span is held.
    pub fn is_span_held(&self, id: ObjectId, span: (u64, u64)) -> bool
        ensures { result ≡ is_span_held id span self.entry.now.cache }
    {
        let from = span.0.max(self.cache.extent(id));
        span.1 <= from || span.1 <= self.cache.next_hole(id, from).0
    }

    /// An exchange brings the next byte, soon enough.
    pub fn is_brought(&self, next: &Next) -> bool
        ensures { result ≡ is_brought next.now.source next.now.at self.entry.now.cache self.entry.now.flow }
    {
        for index in 0..self.flow.len() {
            if let Some(entry) = self.flow.at(index) {
                if self.brings(entry, next) {
                    return true;
                }
            }
        }
        false
    }

    /// The next byte is there or comes.
    pub fn is_provided(&self, next: &Next) -> bool
        ensures { result ≡ is_provided next.now self.entry.now.cache self.entry.now.flow }
    {
        self.cache.is_held(next.source, next.at) || self.is_brought(next)
    }

    /// This exchange brings the next byte, soon enough.
    pub fn brings(&self, entry: &Entry, next: &Next) -> bool
        ensures { result ≡ brings next.now.source next.now.at self.entry.now.cache entry.now }
    {
        match entry.exchange.bound {
            Some(bound) => self.is_to_come(bound, next),
            None => self.asks_for(entry, next),
        }
    }

    /// The next byte, and each before it in its chunk that is not in memory, are still to come, and soon enough.
    fn is_to_come(&self, bound: (ObjectId, u64, u64, bool), next: &Next) -> bool
        ensures { result ≡ is_to_come next.now.source bound next.now.at self.entry.now.cache }
    {
        let (id, from, to, all) = bound;
        is_same(id, next.source)
            && next.at < to
            && is_soon(all, from, next.at)
            && from <= self.first_open(next)
    }

    /// The first byte of its chunk that is not in memory, or the next one, where each before that is.
    #[tactic(auto, using(crate::proofs::BringingLemmas::piece_filled))]
    fn first_open(&self, next: &Next) -> u64
        ensures { result ≡ min next.now.at (next.now.at / 4096 * 4096 + filled next.now.source (next.now.at / 4096) self.entry.now.cache) }
    {
        let front = next.at / CHUNK_LEN * CHUNK_LEN;
        let piece = self.cache.piece(next.source, front);
        next.at.min(front.saturating_add(piece.len() as u64))
    }

    /// Its head has not come, and it asks for that offset of that version, and brings it soon enough.
    fn asks_for(&self, entry: &Entry, next: &Next) -> bool
        ensures { result ≡ asks_for next.now.source next.now.at self.entry.now.cache entry.now }
    {
        if entry.exchange.headed {
            return false;
        }
        match self.cache.row(next.source) {
            None => false,
            Some(row) => asks_row(entry, &row, next.at),
        }
    }

    /// Of what the follower still wants, something is still to come by the exchange, soon enough.
    pub fn serves(&self, entry: &Entry, next: &Next) -> bool
        ensures { result ≡ serves next.now self.entry.now.cache entry.now }
    {
        match entry.exchange.bound {
            Some((id, from, to, all)) => {
                is_same(id, next.source)
                    && from.max(next.at) < to.min(next.to)
                    && is_soon(all, from, next.at)
            }
            None => self.asks_for(entry, next),
        }
    }
}

/// It asks for that offset of this version, and brings it soon enough.
fn asks_row(entry: &Entry, row: &RowView<'_>, at: u64) -> bool
    ensures { result ≡ asks_by entry.now.key.items entry.now.exchange.aim row.now.key.now row.now.version.now.tag at }
{
    match entry.exchange.aim {
        Aim::Hole(version, from, to) => {
            entry.key.as_slice() == row.key
                && version.tag.as_slice() == row.version.tag.as_slice()
                && from <= at
                && at < to
                && is_near(from, at)
        }
        Aim::Own | Aim::Pass => false,
    }
}
