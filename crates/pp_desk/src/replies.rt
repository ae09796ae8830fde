// Replies that were said whole are over, and clients that send no more are closed (RFC 2616, section 8.1).
ghost use Rattle.std.specs.Prelude.{◌≡◌, ◌≤◌, slice_get};
ghost use Rattle.pp_links.specs.Links.{IsLinked};
ghost use Rattle.pp_links.specs.Quiet.{GrowsQuietly};
ghost use Rattle.pp_desk.specs.Closings.{KeepsDesk, sides, where_there};
ghost use Rattle.pp_desk.specs.Replies.{EndsReplies, EndsReply, EndsSaid, EndsSaidIn, EndsSaidOf, IsLookedAt, account_renewed, at_next, closes_in, is_finished_in, without_finished, without_finished_at};
ghost use Rattle.pp_seats.specs.Seats.{at_next_request};
ghost use Rattle.pp_state.specs.Ends.{changed_at, numbers_of, parts, AreSeated, KeepsRest};

use crate::access::log_reply;
use crate::desk::Desk;
use pp_links::Links;
use pp_seats::Seat;
use pp_state::State;
use pp_world::Wire;

impl Desk {
    /// Replies that were said whole are over, and clients of whom nothing is left are closed.
    pub fn end_replies<W: Wire>(&mut self, links: &Links, world: &mut W)
        requires { IsLinked (W.log world.old) (W.top world.old) links.now }
        ensures linked { IsLinked (W.log world.new) (W.top world.new) links.now }
        ensures quiet { GrowsQuietly (W.log world.old) (W.log world.new) }
        ensures told { W.log world.new ≡ W.log world.old }
        ensures top { W.top world.new ≡ W.top world.old }
        ensures faults { W.faults world.old ≤ W.faults world.new }
        ensures is { AreSeated self.old.state → EndsReplies self.old.state.awake.items (sides self.old) (sides self.new) }
        ensures numbers { numbers_of self.new.state.seats.items ≡ numbers_of self.old.state.seats.items }
        ensures rest { KeepsDesk self.old self.new }
    {
        self.end_said(links, world);
        self.close_finished();
    }

    #[tactic(auto, using(crate::proofs::AccessLemmas::quiet_same))]
    fn end_said<W: Wire>(&mut self, links: &Links, world: &mut W)
        requires { IsLinked (W.log world.old) (W.top world.old) links.now }
        ensures linked { IsLinked (W.log world.new) (W.top world.new) links.now }
        ensures quiet { GrowsQuietly (W.log world.old) (W.log world.new) }
        ensures told { W.log world.new ≡ W.log world.old }
        ensures top { W.top world.new ≡ W.top world.old }
        ensures faults { W.faults world.old ≤ W.faults world.new }
        ensures is { AreSeated self.old.state → EndsSaid self.old.state.awake.items (sides self.old) (sides self.new) }
        ensures numbers { numbers_of self.new.state.seats.items ≡ numbers_of self.old.state.seats.items }
        ensures rest { KeepsDesk self.old self.new }
    {
        for turn in 0..self.state.awake.len() {
            self.end_said_in_turn(links, world, turn);
        }
    }

    fn end_said_in_turn<W: Wire>(&mut self, links: &Links, world: &mut W, turn: usize)
        requires { IsLinked (W.log world.old) (W.top world.old) links.now }
        ensures linked { IsLinked (W.log world.new) (W.top world.new) links.now }
        ensures told { W.log world.new ≡ W.log world.old }
        ensures top { W.top world.new ≡ W.top world.old }
        ensures faults { W.faults world.old ≤ W.faults world.new }
        ensures is { AreSeated self.old.state → EndsSaidIn (slice_get self.old.state.awake.items turn) (sides self.old) (sides self.new) }
        ensures numbers { numbers_of self.new.state.seats.items ≡ numbers_of self.old.state.seats.items }
        ensures rest { KeepsDesk self.old self.new }
    {
        if let Some(i) = self.state.awake_at(turn) {
            self.end_said_of(links, world, i);
        }
    }

    /// Where all of the client's reply was said it is over.
    #[tactic(auto, using(crate::proofs::AccessLemmas::quiet_same))]
    fn end_said_of<W: Wire>(&mut self, links: &Links, world: &mut W, i: usize)
        requires { IsLinked (W.log world.old) (W.top world.old) links.now }
        ensures linked { IsLinked (W.log world.new) (W.top world.new) links.now }
        ensures told { W.log world.new ≡ W.log world.old }
        ensures top { W.top world.new ≡ W.top world.old }
        ensures faults { W.faults world.old ≤ W.faults world.new }
        ensures is { AreSeated self.old.state → EndsSaidOf i (sides self.old) (sides self.new) }
        ensures numbers { numbers_of self.new.state.seats.items ≡ numbers_of self.old.state.seats.items }
        ensures rest { KeepsDesk self.old self.new }
    {
        if self.state.is_said(i) {
            self.end_reply(links, world, i);
        }
    }

    fn close_finished(&mut self)
        ensures is { AreSeated self.old.state → sides self.new ≡ without_finished self.old.state.awake.items (sides self.old) }
        ensures numbers { numbers_of self.new.state.seats.items ≡ numbers_of self.old.state.seats.items }
        ensures rest { KeepsDesk self.old self.new }
    {
        for turn in 0..self.state.awake.len() {
            self.close_finished_in_turn(turn);
        }
    }

    fn close_finished_in_turn(&mut self, turn: usize)
        ensures is { AreSeated self.old.state → sides self.new ≡ where_there without_finished_at (sides self.old) (slice_get self.old.state.awake.items turn) }
        ensures numbers { numbers_of self.new.state.seats.items ≡ numbers_of self.old.state.seats.items }
        ensures rest { KeepsDesk self.old self.new }
    {
        if let Some(i) = self.state.awake_at(turn) {
            if self.is_finished(i) {
                self.close_client(i);
            }
        }
    }

    fn is_finished(&self, i: usize) -> bool
        ensures { result ≡ is_finished_in (slice_get self.entry.now.state.seats.items i) }
    {
        match self.state.seats.get(i) {
            None => false,
            Some(seat) => seat.is_finished(),
        }
    }

    fn end_reply<W: Wire>(&mut self, links: &Links, world: &mut W, i: usize)
        requires { IsLinked (W.log world.old) (W.top world.old) links.now }
        ensures linked { IsLinked (W.log world.new) (W.top world.new) links.now }
        ensures told { W.log world.new ≡ W.log world.old }
        ensures top { W.top world.new ≡ W.top world.old }
        ensures faults { W.faults world.old ≤ W.faults world.new }
        ensures is { AreSeated self.old.state → EndsReply i (sides self.old) (sides self.new) }
        ensures numbers { numbers_of self.new.state.seats.items ≡ numbers_of self.old.state.seats.items }
        ensures rest { KeepsDesk self.old self.new }
    {
        self.log_whole(links, world, i);
        self.end_request(i);
    }

    /// The operator is told of its reply, which was said whole.
    fn log_whole<W: Wire>(&self, links: &Links, world: &mut W, i: usize)
        requires { IsLinked (W.log world.old) (W.top world.old) links.now }
        ensures linked { IsLinked (W.log world.new) (W.top world.new) links.now }
        ensures told { W.log world.new ≡ W.log world.old }
        ensures top { W.top world.new ≡ W.top world.old }
        ensures faults { W.faults world.old ≤ W.faults world.new }
    {
        if let Some(seat) = self.state.seats.get(i) {
            log_reply(links, world, seat, false);
        }
    }

    /// The next request stands, or the client is closed.
    fn end_request(&mut self, i: usize)
        ensures is { AreSeated self.old.state → EndsReply i (sides self.old) (sides self.new) }
        ensures numbers { numbers_of self.new.state.seats.items ≡ numbers_of self.old.state.seats.items }
        ensures rest { KeepsDesk self.old self.new }
    {
        let closes = closes_at(&self.state.seats, i);
        renew_account(&mut self.state.seats, i);
        if closes {
            self.close_client(i);
        } else {
            begin_next(&mut self.state, i);
            self.look(i);
        }
    }

    /// What the client at this place sent is read as a request, where there is none.
    fn look(&mut self, i: usize)
        ensures is { IsLookedAt i (sides self.old) (sides self.new) }
        ensures numbers { numbers_of self.new.state.seats.items ≡ numbers_of self.old.state.seats.items }
        ensures rest { KeepsDesk self.old self.new }
    {
        self.state.look(i);
    }
}

/// Whether the client is to be closed behind its reply.
fn closes_at(seats: &[Seat], i: usize) -> bool
    ensures { result ≡ closes_in (slice_get seats.now i) }
{
    match seats.get(i) {
        None => false,
        Some(seat) => seat.closes,
    }
}

/// The account is that of the next reply.
#[tactic(auto, using(pp_state::proofs::PlacesLemmas::changed_here, pp_state::proofs::PlacesLemmas::same_numbers, crate::proofs::ClosingLemmas::none_changed))]
fn renew_account(seats: &mut [Seat], i: usize)
    ensures is { seats.new ≡ changed_at i account_renewed seats.old }
    ensures numbers { numbers_of seats.new ≡ numbers_of seats.old }
{
    if i < seats.len() {
        seats[i].account.renew();
    }
}

/// The next request stands: nothing is followed, and the exchange is nobody's.
fn begin_next(state: &mut State, i: usize)
    ensures is { parts state.new ≡ at_next i (parts state.old) }
    ensures numbers { numbers_of state.new.seats.items ≡ numbers_of state.old.seats.items }
    ensures rest { KeepsRest state.old state.new }
{
    state.leave_source(i);
    state.forsake(i);
    move_on(&mut state.seats, i);
}

#[tactic(auto, using(pp_state::proofs::PlacesLemmas::changed_here, pp_state::proofs::PlacesLemmas::same_numbers, crate::proofs::ClosingLemmas::none_changed))]
fn move_on(seats: &mut [Seat], i: usize)
    ensures is { seats.new ≡ changed_at i at_next_request seats.old }
    ensures numbers { numbers_of seats.new ≡ numbers_of seats.old }
{
    if i < seats.len() {
        seats[i].next_request();
    }
}
