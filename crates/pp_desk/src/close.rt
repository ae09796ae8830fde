// Step 6: connections that are over, and what is taken out of their lines (RFC 2616, section 8.1.4).
ghost use Rattle.std.specs.Prelude.{◌≡◌, ◌≤◌, ◌&&◌, not, true, false, Some, length, vec_capacity};
ghost use Rattle.std.specs.List.{filter, find};
ghost use Rattle.std.specs.Option.{option_to_list};
ghost use Rattle.pp_links.specs.Links.{IsLinked};
ghost use Rattle.pp_links.specs.Quiet.{GrowsQuietly};
ghost use Rattle.pp_peers.specs.Peers.{goes_on, is_number};
ghost use Rattle.pp_desk.specs.Closings.{KeepsDesk, closed_client, closed_line, closing, closing_at, dropped_with, has_closing, left_ask, peer_numbers, place_on, sides, unasked, unasked_of, with_parts, withdrawn};
ghost use Rattle.pp_desk.specs.Shutting.{all_over, awake_left, closings, over_at, over_client, over_clients, over_peer, over_peers, seats_left, stays, without_all};
ghost use Rattle.pp_state.specs.Ends.{changed_at, numbers_of, parts, AreSeated};
ghost use Rattle.pp_world.specs.Log.{AppendsAll};

use crate::access::log_reply;
use crate::desk::Desk;
use pp_flow::Exchange;
use pp_links::Links;
use pp_peers::{Peer, Peers};
use pp_pipe::Pipe;
use pp_seats::Seat;
use pp_state::{State, is_any_over, lose_line};
use pp_world::Wire;

impl Desk {
    /// The client's cause to be closed has come. Its exchange is over where nothing of it was asked, and is nobody's
    /// where something was: what comes of that is read to its end, or dropped where nobody will see it.
    pub fn close_client(&mut self, i: usize)
        ensures is { AreSeated self.old.state → sides self.new ≡ closed_client i (sides self.old) }
        ensures numbers { numbers_of self.new.state.seats.items ≡ numbers_of self.old.state.seats.items }
        ensures connections { peer_numbers self.new.peers ≡ peer_numbers self.old.peers }
        ensures rest { KeepsDesk self.old self.new }
    {
        self.mark_closing(i);
        if let Some(e) = self.state.exchange_of(i) {
            self.leave_ask(i, &e);
        }
    }

    /// It follows nothing any more.
    fn mark_closing(&mut self, i: usize)
        ensures is { sides self.new ≡ with_parts (closing_at i) (sides self.old) }
        ensures numbers { numbers_of self.new.state.seats.items ≡ numbers_of self.old.state.seats.items }
        ensures peers { self.new.peers ≡ self.old.peers }
        ensures rest { KeepsDesk self.old self.new }
    {
        self.state.leave_source(i);
        self.set_closing(i);
    }

    #[tactic(auto, using(pp_state::proofs::PlacesLemmas::changed_here, pp_state::proofs::PlacesLemmas::same_numbers, crate::proofs::ClosingLemmas::none_changed))]
    fn set_closing(&mut self, i: usize)
        ensures is { self.new.state.seats.items ≡ changed_at i (λ seat. record seat { is_closing = true }) self.old.state.seats.items }
        ensures numbers { numbers_of self.new.state.seats.items ≡ numbers_of self.old.state.seats.items }
        ensures rest { record self.new { state = record self.new.state { seats = self.old.state.seats } } ≡ self.old }
    {
        if i < self.state.seats.len() {
            self.state.seats[i].is_closing = true;
        }
    }

    /// Its client leaves the exchange.
    fn leave_ask(&mut self, i: usize, e: &Exchange)
        ensures is { AreSeated self.old.state → sides self.new ≡ left_ask i e.now (sides self.old) }
        ensures numbers { numbers_of self.new.state.seats.items ≡ numbers_of self.old.state.seats.items }
        ensures connections { peer_numbers self.new.peers ≡ peer_numbers self.old.peers }
        ensures rest { KeepsDesk self.old self.new }
    {
        let asked = match self.state.flow.entry(e.number) {
            None => return,
            Some(entry) => entry.errand.asked,
        };
        match e.place {
            None => self.state.end(e.number),
            Some(k) if asked == 0 => self.withdraw(e.number, k),
            Some(_) => self.state.forsake(i),
        }
    }

    /// The exchange is over, and its connection is closed.
    pub fn drop_with(&mut self, number: u64, k: u64)
        ensures is { AreSeated self.old.state → sides self.new ≡ dropped_with number k (sides self.old) }
        ensures numbers { numbers_of self.new.state.seats.items ≡ numbers_of self.old.state.seats.items }
        ensures connections { peer_numbers self.new.peers ≡ peer_numbers self.old.peers }
        ensures rest { KeepsDesk self.old self.new }
    {
        self.state.end(number);
        self.close_origin(k, false);
    }

    /// Takes an exchange of which nothing was asked out of its line.
    fn withdraw(&mut self, number: u64, k: u64)
        ensures is { sides self.new ≡ withdrawn number k (sides self.old) }
        ensures numbers { numbers_of self.new.state.seats.items ≡ numbers_of self.old.state.seats.items }
        ensures connections { peer_numbers self.new.peers ≡ peer_numbers self.old.peers }
        ensures rest { KeepsDesk self.old self.new }
    {
        if let Some(place) = self.place_on(k, number) {
            unask(&mut self.peers, k, place);
        }
        self.state.end(number);
    }

    /// Where the exchange stands in the line.
    #[tactic(auto, using(crate::proofs::PlaceLemmas::found, crate::proofs::PlaceLemmas::passed, crate::proofs::PlaceLemmas::over))]
    fn place_on(&self, k: u64, number: u64) -> Option<usize>
        ensures { result ≡ place_on k number self.entry.now.state.flow }
    {
        for place in 0..self.state.flow.len() {
            let other = self.state.flow.line(k, place)?;
            if other == number {
                return Some(place);
            }
        }
        None
    }

    /// A connection's cause to be closed has come. "Client software SHOULD reopen the transport connection
    /// and retransmit the aborted sequence of requests". Ours: an attempt is lost where the connection never
    /// brought a whole response.
    #[tactic(auto, using(crate::proofs::ClosingLemmas::line_lost))]
    pub fn close_origin(&mut self, k: u64, counts: bool)
        ensures is { AreSeated self.old.state → parts self.new.state ≡ closed_line k counts (find (is_number k) self.old.peers) (parts self.old.state) }
        ensures peers { self.new.peers ≡ closing k (find (is_number k) self.old.peers) self.old.peers }
        ensures numbers { numbers_of self.new.state.seats.items ≡ numbers_of self.old.state.seats.items }
        ensures rest { KeepsDesk self.old self.new }
    {
        let has_brought = match self.peers.get(k) {
            Some(peer) if !peer.is_closing => peer.has_brought,
            Some(_) | None => return,
        };
        if let Some(peer) = self.peers.get_mut(k) {
            peer.is_closing = true;
        }
        lose_line(&mut self.state, k, is_counted(counts, has_brought));
    }

    /// Step 6: connections that are over are closed; at the end all are.
    #[tactic(auto, using(pp_links::proofs::QuietLemmas::quiet_then, crate::proofs::ShuttingLemmas::closed_then, crate::proofs::ShuttingLemmas::left_then))]
    pub fn close_over<W: Wire>(&mut self, links: &mut Links, world: &mut W)
        requires { IsLinked (W.log world.old) (W.top world.old) links.old }
        ensures linked { IsLinked (W.log world.new) (W.top world.new) links.new }
        ensures quiet { GrowsQuietly (W.log world.old) (W.log world.new) }
        ensures told { AppendsAll (W.log world.old) (W.log world.new) (λ l. closings (all_over self.old) links.old) }
        ensures links { links.new ≡ without_all (all_over self.old) links.old }
        ensures top { W.top world.new ≡ W.top world.old }
        ensures faults { W.faults world.old ≤ W.faults world.new }
        ensures closed { has_closing self.new.peers ≡ false }
        ensures peers { self.new.peers ≡ filter (goes_on self.old.state.is_stopped) self.old.peers }
        ensures seats { self.new.state.seats.items ≡ seats_left self.old.state }
        ensures seated { AreSeated self.old.state → AreSeated self.new.state }
        ensures awake { length (seats_left self.old.state) ≤ vec_capacity self.old.state.awake → self.new.state.awake.items ≡ awake_left self.old.state }
        ensures room { vec_capacity self.old.state.awake ≤ vec_capacity self.new.state.awake }
        ensures capacity { vec_capacity self.new.state.seats ≡ vec_capacity self.old.state.seats }
        ensures rest { record self.new { state = record self.new.state { seats = self.old.state.seats; awake = self.old.state.awake }; peers = self.old.peers } ≡ self.old }
    {
        self.shut_clients(links, world);
        self.drop_origins(links, world);
        self.drop_over();
    }

    /// Those that are over are gone.
    #[tactic(auto, using(crate::proofs::ClosingLemmas::none_closing))]
    fn drop_over(&mut self)
        ensures closed { has_closing self.new.peers ≡ false }
        ensures peers { self.new.peers ≡ filter (goes_on self.old.state.is_stopped) self.old.peers }
        ensures seats { self.new.state.seats.items ≡ seats_left self.old.state }
        ensures seated { AreSeated self.old.state → AreSeated self.new.state }
        ensures awake { length (seats_left self.old.state) ≤ vec_capacity self.old.state.awake → self.new.state.awake.items ≡ awake_left self.old.state }
        ensures room { vec_capacity self.old.state.awake ≤ vec_capacity self.new.state.awake }
        ensures capacity { vec_capacity self.new.state.seats ≡ vec_capacity self.old.state.seats }
        ensures rest { record self.new { state = record self.new.state { seats = self.old.state.seats; awake = self.old.state.awake }; peers = self.old.peers } ≡ self.old }
    {
        self.peers.drop_closing(self.state.is_stopped);
        drop_seats(&mut self.state);
    }

    #[tactic(auto, using(pp_links::proofs::QuietLemmas::quiet_then, pp_links::proofs::QuietLemmas::quiet_none))]
    fn shut_clients<W: Wire>(&self, links: &mut Links, world: &mut W)
        requires { IsLinked (W.log world.old) (W.top world.old) links.old }
        ensures linked { IsLinked (W.log world.new) (W.top world.new) links.new }
        ensures quiet { GrowsQuietly (W.log world.old) (W.log world.new) }
        ensures told { AppendsAll (W.log world.old) (W.log world.new) (λ l. closings (over_clients self.entry.now.state) links.old) }
        ensures links { links.new ≡ without_all (over_clients self.entry.now.state) links.old }
        ensures top { W.top world.new ≡ W.top world.old }
        ensures faults { W.faults world.old ≤ W.faults world.new }
    {
        for i in self.state.awake.iter() {
            self.shut(links, world, *i);
        }
    }

    #[tactic(auto, using(pp_links::proofs::QuietLemmas::quiet_then, pp_links::proofs::QuietLemmas::quiet_none))]
    fn drop_origins<W: Wire>(&self, links: &mut Links, world: &mut W)
        requires { IsLinked (W.log world.old) (W.top world.old) links.old }
        ensures linked { IsLinked (W.log world.new) (W.top world.new) links.new }
        ensures quiet { GrowsQuietly (W.log world.old) (W.log world.new) }
        ensures told { AppendsAll (W.log world.old) (W.log world.new) (λ l. closings (over_peers self.entry.now.state.is_stopped self.entry.now.peers) links.old) }
        ensures links { links.new ≡ without_all (over_peers self.entry.now.state.is_stopped self.entry.now.peers) links.old }
        ensures top { W.top world.new ≡ W.top world.old }
        ensures faults { W.faults world.old ≤ W.faults world.new }
    {
        for peer in self.peers.as_slice() {
            drop_if_over(links, world, peer, self.state.is_stopped);
        }
    }

    #[tactic(auto, using(pp_links::proofs::QuietLemmas::quiet_then, pp_links::proofs::QuietLemmas::quiet_none))]
    fn shut<W: Wire>(&self, links: &mut Links, world: &mut W, i: usize)
        requires { IsLinked (W.log world.old) (W.top world.old) links.old }
        ensures linked { IsLinked (W.log world.new) (W.top world.new) links.new }
        ensures quiet { GrowsQuietly (W.log world.old) (W.log world.new) }
        ensures told { AppendsAll (W.log world.old) (W.log world.new) (λ l. closings (option_to_list (over_at self.entry.now.state i)) links.old) }
        ensures links { links.new ≡ without_all (option_to_list (over_at self.entry.now.state i)) links.old }
        ensures top { W.top world.new ≡ W.top world.old }
        ensures faults { W.faults world.old ≤ W.faults world.new }
    {
        self.log_cut(links, world, i);
        close_if(links, world, self.over_at(i));
    }

    /// The operator is told that its reply was cut, where it is over.
    #[tactic(auto, using(pp_links::proofs::QuietLemmas::quiet_none))]
    fn log_cut<W: Wire>(&self, links: &Links, world: &mut W, i: usize)
        requires { IsLinked (W.log world.old) (W.top world.old) links.now }
        ensures linked { IsLinked (W.log world.new) (W.top world.new) links.now }
        ensures quiet { GrowsQuietly (W.log world.old) (W.log world.new) }
        ensures told { W.log world.new ≡ W.log world.old }
        ensures top { W.top world.new ≡ W.top world.old }
        ensures faults { W.faults world.old ≤ W.faults world.new }
    {
        if let Some(seat) = self.state.seats.get(i) {
            if self.state.is_stopped || seat.is_closing {
                log_reply(links, world, seat, true);
            }
        }
    }

    /// Its number, where it is over.
    fn over_at(&self, i: usize) -> Option<u64>
        ensures { result ≡ over_at self.entry.now.state i }
    {
        match self.state.seats.get(i) {
            None => None,
            Some(seat) => over_client(seat, self.state.is_stopped),
        }
    }
}

/// Where one of those that are looked at is over, all that are go, and the others are looked at: they have other places.
fn drop_seats(state: &mut State)
    ensures seats { state.new.seats.items ≡ seats_left state.old }
    ensures awake { length (seats_left state.old) ≤ vec_capacity state.old.awake → state.new.awake.items ≡ awake_left state.old }
    ensures room { vec_capacity state.old.awake ≤ vec_capacity state.new.awake }
    ensures capacity { vec_capacity state.new.seats ≡ vec_capacity state.old.seats }
    ensures rest { record state.new { seats = state.old.seats; awake = state.old.awake } ≡ state.old }
{
    if is_any_over(state) {
        keep_seats(&mut state.seats, state.is_stopped);
        state.wake();
    }
}

/// Those stay that go on.
fn keep_seats(seats: &mut Vec<Seat>, is_end: bool)
    ensures items { seats.new.items ≡ filter (stays is_end) seats.old.items }
    ensures capacity { vec_capacity seats.new ≡ vec_capacity seats.old }
{
    seats.retain(|seat| stays(seat, is_end));
}

fn stays(seat: &Seat, is_end: bool) -> bool
    ensures { result ≡ stays is_end seat.now }
{
    !(is_end || seat.is_closing)
}

fn over_client(seat: &Seat, is_end: bool) -> Option<u64>
    ensures { result ≡ over_client is_end (Some seat.now) }
{
    if is_end || seat.is_closing {
        Some(seat.id())
    } else {
        None
    }
}

#[tactic(auto, using(pp_links::proofs::QuietLemmas::quiet_then, pp_links::proofs::QuietLemmas::quiet_none))]
fn drop_if_over<W: Wire>(links: &mut Links, world: &mut W, peer: &Peer, is_end: bool)
    requires { IsLinked (W.log world.old) (W.top world.old) links.old }
    ensures linked { IsLinked (W.log world.new) (W.top world.new) links.new }
    ensures quiet { GrowsQuietly (W.log world.old) (W.log world.new) }
    ensures told { AppendsAll (W.log world.old) (W.log world.new) (λ l. closings (option_to_list (over_peer is_end peer.now)) links.old) }
    ensures links { links.new ≡ without_all (option_to_list (over_peer is_end peer.now)) links.old }
    ensures top { W.top world.new ≡ W.top world.old }
    ensures faults { W.faults world.old ≤ W.faults world.new }
{
    close_if(links, world, over_peer(peer, is_end));
}

fn over_peer(peer: &Peer, is_end: bool) -> Option<u64>
    ensures { result ≡ over_peer is_end peer.now }
{
    if is_end || peer.is_closing {
        Some(peer.number)
    } else {
        None
    }
}

/// The ask that stands there is taken out of the pipe of this connection.
fn unask(peers: &mut Peers, k: u64, place: usize)
    ensures { peers.new ≡ unasked_of k place (find (is_number k) peers.old) peers.old }
{
    if let Some(pipe) = peers.pipe(k) {
        unask_in(pipe, place);
    }
}

/// Where no byte of it was written.
#[tactic(auto, using(crate::proofs::ClosingLemmas::none_unasked))]
fn unask_in(pipe: &mut Pipe, place: usize)
    ensures { pipe.new ≡ unasked place pipe.old }
{
    if place < pipe.asks() {
        let _ = pipe.withdraw(place);
    }
}

/// Where the connection never brought a whole response, the loss counts.
fn is_counted(counts: bool, has_brought: bool) -> bool
    ensures { result ≡ (counts && not has_brought) }
{
    counts && !has_brought
}

/// Closes a connection, if there is one to close.
#[tactic(auto, using(pp_links::proofs::QuietLemmas::quiet_none))]
fn close_if<W: Wire>(links: &mut Links, world: &mut W, over: Option<u64>)
    requires { IsLinked (W.log world.old) (W.top world.old) links.old }
    ensures linked { IsLinked (W.log world.new) (W.top world.new) links.new }
    ensures quiet { GrowsQuietly (W.log world.old) (W.log world.new) }
    ensures told { AppendsAll (W.log world.old) (W.log world.new) (λ l. closings (option_to_list over) links.old) }
    ensures links { links.new ≡ without_all (option_to_list over) links.old }
    ensures top { W.top world.new ≡ W.top world.old }
    ensures faults { W.faults world.old ≤ W.faults world.new }
{
    if let Some(id) = over {
        links.close(world, id);
    }
}
