// What the steps of a turn change together: clients, exchanges and the cache.
ghost use Rattle.std.specs.Prelude.{◌≡◌, ◌<◌, ◌≤◌, ◌&&◌, ◌+◌, ◌||◌, length, nat_le, nat_lt, option_map, slice_get, vec_capacity, Some, IfSome};
ghost use Rattle.pp_seats.specs.Courses.{is_unfilled};
ghost use Rattle.pp_state.specs.Ends.{asker_of, dropped_row, ended, exchange_at, exchange_of, failed, forsaken, given_up_row, is_unfilled_at, left_at_decision, lost_attempt, may_ask_again, numbers_of, parts, place_of, seat_for, AreInOrder, AreSeated, KeepsRest, all_regained, changed_at, is_held_next, left_source, is_regained, regained, source_at, unfollowed, without_source};
ghost use Rattle.pp_seats.specs.Follows.{next_of};
ghost use Rattle.pp_state.specs.Numbers.{places, with_number};

use arrayvec::ArrayVec;
use pp_cache::{Cache, Noted};
use pp_flow::{Aim, EXCHANGES, Exchange, Flow};
use pp_objects::ObjectId;
use pp_peers::Limits;
use pp_seats::{Course, Seat, Stage};
use pp_valid::Version;
use std::alloc::Global;

/// What the steps of a turn change together.
#[derive(Drop)]
pub struct State {
    /// Where memory comes from.
    pub alloc: Global,
    /// The name of this proxy.
    pub name: ArrayVec<u8, 64>,
    /// Eviction begins where so many chunks are used,
    pub trigger: u32,
    /// and ends at so many.
    pub floor: u32,
    /// Many requests wait for one fetch.
    pub shares_fetches: bool,
    /// What the connections of a host may be used for.
    pub limits: Limits,
    /// In the order of their numbers.
    pub seats: Vec<Seat>,
    /// The places of those for whom this turn may do something, in the same order. Whoever is not there is silent, and
    /// stands in the wants of the last wait if and only if it is to be read: this turn changes nothing of it.
    pub awake: Vec<usize>,
    /// The exchanges that are under way.
    pub flow: Flow,
    /// What is in memory.
    pub cache: Cache,
    /// How many whole chunks are kept on the disk at a time.
    pub run: u32,
    /// A draft failed, and the clock has not ticked since.
    pub has_lost_draft: bool,
    /// Seconds since 1970, as the last tick told.
    pub now: u64,
    /// The clock ticked in this life.
    pub has_ticked: bool,
    /// It ticked in this turn.
    pub is_ticked: bool,
    /// The event of this turn is Stop.
    pub is_stopped: bool,
    /// The trigger was reached in this turn.
    pub is_evicting: bool,
    /// Keys of rows that left memory and are not noted yet.
    pub forgotten: Noted,
    /// Keys of rows that memory was refused for.
    pub refused: Noted,
    /// Memory was refused for what the law knows, or a loop ended at its bound: from then on nothing is said of the log.
    pub is_astray: bool,
}

impl State {
    /// The place of a client.
    pub fn seat_of(&self, client: u64) -> Option<usize>
        ensures there { IfSome result (λ i. i < length self.entry.now.seats.items) }
        ensures number { IfSome result (λ i. slice_get (numbers_of self.entry.now.seats.items) i ≡ Some client) }
        ensures place { AreSeated self.entry.now → result ≡ place_of client (numbers_of self.entry.now.seats.items) }
    {
        self.seats
            .as_slice()
            .binary_search_by_key(&client, |seat| seat.id())
            .ok()
    }

    /// The place among all clients of the one that stands there among those.
    pub fn awake_at(&self, turn: usize) -> Option<usize>
        ensures { result ≡ slice_get self.entry.now.awake.items turn }
    {
        self.awake.get(turn).copied()
    }

    /// All may be looked at: the clock ticked, all is to be closed, or one left, and the others have other places.
    pub fn wake(&mut self)
        ensures all { length self.old.seats.items ≤ vec_capacity self.old.awake → self.new.awake.items ≡ places (length self.old.seats.items) }
        ensures room { vec_capacity self.old.awake ≤ vec_capacity self.new.awake }
        ensures rest { record self.new { awake = self.old.awake } ≡ self.old }
    {
        self.awake.clear();
        for i in 0..self.seats.len() {
            let _ = self.awake.push(i);
        }
    }

    /// This one too.
    pub fn rouse(&mut self, i: usize)
        ensures too { AreInOrder self.old.awake.items → length self.old.awake.items < vec_capacity self.old.awake → self.new.awake.items ≡ with_number i self.old.awake.items }
        ensures room { vec_capacity self.old.awake ≤ vec_capacity self.new.awake }
        ensures rest { record self.new { awake = self.old.awake } ≡ self.old }
    {
        if let Err(place) = self.awake.as_slice().binary_search(&i) {
            let _ = self.awake.insert(place, i);
        }
    }

    /// The client of an exchange: its request did not leave it.
    pub fn seat_for(&self, e: &Exchange) -> Option<usize>
        ensures there { IfSome result (λ i. i < length self.entry.now.seats.items) }
        ensures place { AreSeated self.entry.now → result ≡ seat_for e.now self.entry.now.seats.items }
    {
        self.seat_of(e.asker?)
    }

    /// The request of the exchange did not leave it, and may ask once more.
    pub fn may_ask_again(&self, number: u64) -> bool
        ensures { AreSeated self.entry.now → result ≡ may_ask_again number (parts self.entry.now) }
    {
        match self.asker_of(number) {
            None => false,
            Some(seat) => seat.is_trying(),
        }
    }

    /// The client of the exchange with this number.
    pub fn asker_of(&self, number: u64) -> Option<&Seat>
        ensures { AreSeated self.entry.now → option_map (λ seat. seat.now) result ≡ asker_of number (parts self.entry.now) }
    {
        let e = self.flow.get(number)?;
        let i = self.seat_for(e)?;
        Some(&self.seats[i])
    }

    /// The exchange with this number.
    pub fn exchange(&self, number: u64) -> Option<Exchange>
        ensures { result ≡ exchange_at number self.entry.now.flow }
    {
        match self.flow.get(number) {
            None => None,
            Some(e) => Some(*e),
        }
    }

    /// Whether another exchange may begin.
    pub fn may_ask(&self) -> bool
        ensures { result ≡ (nat_lt (length self.entry.now.flow.waiting + length self.entry.now.flow.placed) 1024 && nat_lt self.entry.now.flow.begun 18446744073709551615) }
    {
        self.flow.len() < EXCHANGES && self.flow.begun() < u64::MAX
    }

    /// The exchange is over.
    pub fn end(&mut self, number: u64)
        ensures is { parts self.new ≡ ended number (parts self.old) }
        ensures seats { self.new.seats ≡ self.old.seats }
        ensures numbers { numbers_of self.new.seats.items ≡ numbers_of self.old.seats.items }
        ensures rest { KeepsRest self.old self.new }
    {
        self.flow.over(number);
    }

    /// The exchange of the request of the client at this place.
    pub fn exchange_of(&self, i: usize) -> Option<Exchange>
        ensures { result ≡ exchange_of i (parts self.entry.now) }
    {
        let seat = self.seats.get(i)?;
        self.exchange(self.flow.asked_by(seat.id())?)
    }

    /// The request leaves its exchange: that is nobody's from now on, and is read to its end.
    pub fn forsake(&mut self, i: usize)
        ensures is { parts self.new ≡ forsaken i (parts self.old) }
        ensures rest { KeepsRest self.old self.new }
    {
        if let Some(e) = self.exchange_of(i) {
            self.flow.leave(e.number);
        }
    }

    /// The same at a decision: without a place it is over.
    pub fn leave_exchange(&mut self, i: usize)
        ensures is { parts self.new ≡ left_at_decision i (parts self.old) }
        ensures seats { self.new.seats ≡ self.old.seats }
        ensures rest { KeepsRest self.old self.new }
    {
        let Some(e) = self.exchange_of(i) else {
            return;
        };
        match e.place {
            None => self.end(e.number),
            Some(_) => self.flow.leave(e.number),
        }
    }

    /// An attempt of the exchange is lost.
    #[tactic(auto, using(crate::proofs::SeatsLemmas::changed_here, crate::proofs::SeatsLemmas::set_numbers), unfolding(crate::specs::Ends::charged_at))]
    pub fn lose_attempt(&mut self, e: &Exchange)
        ensures is { AreSeated self.old → parts self.new ≡ lost_attempt e.now (parts self.old) }
        ensures numbers { numbers_of self.new.seats.items ≡ numbers_of self.old.seats.items }
        ensures rest { KeepsRest self.old self.new }
    {
        let most = match self.flow.entry(e.number) {
            None => return,
            Some(entry) => entry.errand.attempts(),
        };
        if let Some(i) = self.seat_for(e) {
            self.seats[i].lose_attempt(most);
            self.give_up_row(e, i);
        }
    }

    /// The attempts of the exchange end at once.
    #[tactic(auto, using(crate::proofs::SeatsLemmas::changed_here, crate::proofs::SeatsLemmas::set_numbers), unfolding(crate::specs::Ends::charged_at))]
    pub fn fail(&mut self, e: &Exchange)
        ensures is { AreSeated self.old → parts self.new ≡ failed e.now (parts self.old) }
        ensures numbers { numbers_of self.new.seats.items ≡ numbers_of self.old.seats.items }
        ensures rest { KeepsRest self.old self.new }
    {
        if let Some(i) = self.seat_for(e) {
            self.seats[i].course = Course::OutOfTries;
            self.give_up_row(e, i);
        }
    }

    /// A row whose hole nobody fills is cleared, and its request, of the client at this place, leaves the exchange.
    #[tactic(auto, unfolding(crate::specs::Ends::given_up_row))]
    fn give_up_row(&mut self, e: &Exchange, i: usize)
        requires { i < length self.old.seats.items }
        ensures is { parts self.new ≡ given_up_row i e.now (parts self.old) }
        ensures numbers { numbers_of self.new.seats.items ≡ numbers_of self.old.seats.items }
        ensures rest { KeepsRest self.old self.new }
    {
        if self.is_unfilled(e, i) {
            self.drop_row(e, i);
        }
    }

    #[tactic(auto, using(crate::proofs::SeatsLemmas::changed_here, crate::proofs::SeatsLemmas::set_numbers))]
    fn drop_row(&mut self, e: &Exchange, i: usize)
        requires { i < length self.old.seats.items }
        ensures is { parts self.new ≡ dropped_row i e.now (parts self.old) }
        ensures numbers { numbers_of self.new.seats.items ≡ numbers_of self.old.seats.items }
        ensures rest { KeepsRest self.old self.new }
    {
        self.clear_row(e);
        self.seats[i].lose_row();
        self.flow.leave(e.number);
    }

    fn is_unfilled(&self, e: &Exchange, i: usize) -> bool
        requires { i < length self.now.seats.items }
        ensures { result ≡ is_unfilled_at i e.now (parts self.entry.now) }
    {
        match self.known_version(e) {
            None => false,
            Some(known) => is_unfilled(&e.aim, self.seats[i].course, &known),
        }
    }

    /// The client follows nothing any more.
    #[tactic(auto, using(crate::proofs::SeatsLemmas::changed_here, crate::proofs::SeatsLemmas::set_numbers))]
    pub fn leave_source(&mut self, i: usize)
        ensures is { parts self.new ≡ left_source i (parts self.old) }
        ensures numbers { numbers_of self.new.seats.items ≡ numbers_of self.old.seats.items }
        ensures rest { KeepsRest self.old self.new }
    {
        let Some(id) = self.source_at(i) else {
            return;
        };
        if i < self.seats.len() {
            unfollow(&mut self.seats[i]);
        }
        self.leave_instance(id);
    }

    /// What the client at this place follows.
    fn source_at(&self, i: usize) -> Option<ObjectId>
        ensures { result ≡ source_at i (parts self.entry.now) }
    {
        self.seats.get(i)?.answer()?.source
    }

    /// One client less follows it.
    fn leave_instance(&mut self, id: ObjectId)
        ensures { self.new ≡ record self.old { cache = unfollowed id self.old.cache } }
    {
        self.cache.leave(id);
    }

    /// Attempts count anew for those whose next byte is held and to whom no response is passed.
    pub fn regain(&mut self)
        ensures is { self.new.seats.items ≡ all_regained self.old.cache self.old.awake.items self.old.seats.items }
        ensures numbers { numbers_of self.new.seats.items ≡ numbers_of self.old.seats.items }
        ensures rest { record self.new { seats = self.old.seats } ≡ self.old }
    {
        regain_all(&mut self.seats, &self.awake, &self.cache);
    }

    /// This life goes astray where there is more to do.
    pub fn note_more(&mut self, goes: bool)
        ensures { self.new ≡ record self.old { is_astray = self.old.is_astray || goes } }
    {
        self.is_astray = self.is_astray || goes;
    }

    /// Eviction begins where as many chunks are used as the trigger says.
    pub fn note_use(&mut self)
        ensures { self.new ≡ record self.old { is_evicting = self.old.is_evicting || nat_le self.old.trigger (length self.old.cache.chunks) } }
    {
        self.is_evicting = self.is_evicting || self.trigger <= self.cache.used();
    }
}

/// This client follows nothing any more.
fn unfollow(seat: &mut Seat)
    ensures { seat.new ≡ without_source seat.old }
{
    match &mut seat.stage {
        Stage::Undecided | Stage::Waiting | Stage::Passing => {}
        Stage::Answering(answer) => answer.source = None,
    }
}

fn regain_all(seats: &mut [Seat], places: &[usize], cache: &Cache)
    ensures { seats.new ≡ all_regained cache.now places.now seats.old }
{
    for i in places {
        regain_at(seats, *i, cache);
    }
}

#[tactic(auto, using(crate::proofs::SeatsLemmas::changed_here))]
fn regain_at(seats: &mut [Seat], i: usize, cache: &Cache)
    ensures { seats.new ≡ changed_at i (regained cache.now) seats.old }
{
    if i < seats.len() {
        regain(&mut seats[i], cache);
    }
}

/// Where the next byte of this client is held, its attempts count anew; not where a response is passed to it.
fn regain(seat: &mut Seat, cache: &Cache)
    ensures { seat.new ≡ regained cache.now seat.old }
{
    if matches!(seat.course, Course::Trying(0)) {
        return;
    }
    if is_next_held(seat, cache) && seat.passed().is_none() {
        seat.course = Course::Trying(0);
    }
}

fn is_next_held(seat: &Seat, cache: &Cache) -> bool
    ensures { result ≡ is_held_next (next_of seat.now) cache.now }
{
    match seat.next() {
        None => false,
        Some(next) => cache.is_held(next.source, next.at),
    }
}

/// A hole of the row's version was asked for, and the attempts of its request ended.
fn is_unfilled(aim: &Aim, course: Course, known: &Version) -> bool
    ensures { result ≡ is_unfilled aim.now course known.now }
{
    match (aim, course) {
        (Aim::Hole(version, _, _), Course::OutOfTries) => {
            version.tag.as_slice() == known.tag.as_slice() && version.length == known.length
        }
        (Aim::Hole(_, _, _), Course::Trying(_) | Course::AskTooLong) => false,
        (Aim::Own | Aim::Pass, _) => false,
    }
}
