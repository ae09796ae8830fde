// A client, and how far its current request is.
ghost use Rattle.std.specs.Prelude.{◌≡◌, ◌≤◌, ◌+◌, ◌-◌, ◌^◌, min};
ghost use Rattle.pp_client.specs.Replies.{left_next};
ghost use Rattle.pp_client.specs.Requests.{current_of};
ghost use Rattle.pp_seats.specs.Accounts.{HasLine, begun, line_in, line_of};
ghost use Rattle.pp_seats.specs.Courses.{has_begun, is_trying_in, lost_one, without_row, without_shared_row};
ghost use Rattle.pp_seats.specs.Said.{used_by};
ghost use Rattle.pp_seats.specs.Follows.{answer_in, next_of};
ghost use Rattle.pp_seats.specs.Seats.{IsRead, at_next_request, brought_to, finished_in, has_key, is_at_body, is_silent, is_told_in, new_seat, passed_in, told_by, without_body};

use crate::account::{Account, line_of};
use crate::front::Front;
use pp_client::Client;
use pp_framing::BodyRule;
use pp_objects::ObjectId;
use pp_world::Decision;
use std::alloc::Global;

/// Where the current request is. The exchange that it waits for is the one that names its client.
///
/// ```text
/// Undecided -> Waiting, Passing   an origin is asked                  [ask_origin]
/// Waiting   -> Waiting, Passing   what came does not answer it        [ask_origin]
/// any       -> Answering          a reply is decided                  [answer, refuse]
/// Answering -> Waiting, Passing   its row is lost before it began     [ask_origin]
/// Answering -> Undecided          all was said: the next one stands   [next_request]
/// ```
#[derive(Clone, Copy)]
pub enum Stage {
    Undecided,
    /// Decided again when the head of its exchange's response came.
    Waiting,
    /// The response to its exchange is its reply.
    Passing,
    Answering(Answer),
}

/// What the exchange of the request brought, by the head of its response.
#[derive(Clone, Copy)]
pub enum Brought {
    /// Nothing yet.
    Awaited,
    /// Nothing of use.
    Useless,
    /// A body that belongs to this instance; and whether no Age was told.
    Joins(ObjectId, bool),
    /// A response that is passed.
    Passes(Passed),
    /// A part, without a version, that was asked for from before the client's range on.
    TooWide,
    /// A version for whose row memory was refused.
    Refused,
}

/// A response that is passed: its head is written already, and its body goes through the client's pipe.
#[derive(Clone, Copy)]
pub struct Passed {
    /// Its status.
    pub status: u16,
    /// Where its body ends.
    pub rule: BodyRule,
    /// Bytes of the head that was written.
    pub head_len: usize,
    /// How much of its body came.
    pub end: PassedEnd,
}

/// How much of the body of a response that is passed came.
#[derive(Clone, Copy, Debug, PartialEq, Eq)]
pub enum PassedEnd {
    /// More of it is to come.
    Coming,
    /// All of it is in the pipe.
    Whole,
    /// Its connection was gone before it was whole.
    Short,
}

/// A reply that was decided.
#[derive(Clone, Copy)]
pub struct Answer {
    /// What was decided.
    pub decision: Decision,
    /// The instance that is followed.
    pub source: Option<ObjectId>,
    /// The half-open span of its offsets; of a reply that has begun the client knows how far it is.
    pub from: u64,
    /// The end of that span.
    pub to: u64,
    /// Its head was written, and goes out.
    pub has_begun: bool,
}

/// The exchange of another client that a request waits for, and the second in which it began to.
#[derive(Clone, Copy)]
pub struct Shared {
    /// The number of the exchange.
    pub exchange: u64,
    /// The second.
    pub since: u64,
}

/// How a request fares (RFC 2616, section 8.1.4).
#[derive(Clone, Copy, Debug, PartialEq, Eq)]
pub enum Course {
    /// So many attempts were lost.
    Trying(u8),
    /// They ended.
    OutOfTries,
    /// What its client would ask as a follower is too long.
    AskTooLong,
}

/// The next byte of a client that follows an instance, and the end of its span, or of what is said of it.
#[derive(Clone, Copy)]
pub struct Next {
    /// The instance.
    pub source: ObjectId,
    /// The offset of the next byte.
    pub at: u64,
    /// The end of the span.
    pub to: u64,
}

/// A client, and how far its current request is.
#[derive(Drop)]
pub struct Seat {
    /// What it sent, and what is said to it.
    pub client: Client,
    /// It sends no more.
    pub has_hung_up: bool,
    /// Its current request.
    pub front: Front,
    /// Bytes of that request's body that are still to be asked.
    pub body_left: u64,
    /// The number of the request.
    pub index: u64,
    /// Where that is.
    pub stage: Stage,
    /// The exchange of another client that it waits for, before its own.
    pub waits_on: Option<Shared>,
    /// What the exchange of the request brought.
    pub brought: Brought,
    /// How the request fares.
    pub course: Course,
    /// A row was cleared for its request: nobody filled its hole, or it may not be shared.
    pub has_given_up: bool,
    /// Bytes of the interim answer and of the head that are still to be said.
    pub before_body: usize,
    /// Its reply is the last.
    pub closes: bool,
    /// Its cause to be closed has come, and it counts as closed.
    pub is_closing: bool,
    /// What the operator's log is to say of its current reply.
    pub account: Account,
}

impl Seat {
    /// A client that was accepted in this turn.
    pub fn new(client: Client) -> Seat
        ensures { result ≡ new_seat client }
    {
        Seat {
            client,
            has_hung_up: false,
            front: Front::NoHeadYet,
            body_left: 0,
            index: 0,
            stage: Stage::Undecided,
            waits_on: None,
            brought: Brought::Awaited,
            course: Course::Trying(0),
            has_given_up: false,
            before_body: 0,
            closes: false,
            is_closing: false,
            account: Account::Unkept,
        }
    }

    /// What the client sent is read as a request, where there is none.
    pub fn look(&mut self, alloc: Global)
        ensures { IsRead self.old self.new }
    {
        match self.front {
            Front::NoHeadYet => {}
            Front::NoHead(_) | Front::Request(_) => return,
        }
        self.front = Front::of(alloc, &self.client);
        self.body_left = match self.front.asked() {
            None => 0,
            Some(asked) => asked.body_len,
        };
    }

    /// The number of the connection.
    pub fn id(&self) -> u64
        ensures { result ≡ self.now.client.id }
    {
        self.client.id()
    }

    /// The reply that was decided.
    pub fn answer(&self) -> Option<Answer>
        ensures { result ≡ answer_in self.now.stage }
    {
        match self.stage {
            Stage::Undecided | Stage::Waiting | Stage::Passing => None,
            Stage::Answering(answer) => Some(answer),
        }
    }

    /// That is the key of its request.
    pub fn has_key(&self, key: &[u8]) -> bool
        ensures { result ≡ has_key key.now self.now }
    {
        match self.front.key() {
            None => false,
            Some(own) => own.text() == key,
        }
    }

    /// The head of its exchange's response came.
    pub fn is_told(&self) -> bool
        ensures { result ≡ is_told_in self.now.brought }
    {
        match self.brought {
            Brought::Awaited => false,
            Brought::Useless
            | Brought::Joins(_, _)
            | Brought::Passes(_)
            | Brought::TooWide
            | Brought::Refused => true,
        }
    }

    /// The response that its exchange passes to it.
    pub fn passed(&self) -> Option<Passed>
        ensures { result ≡ passed_in self.now.brought }
    {
        match self.brought {
            Brought::Passes(passed) => Some(passed),
            Brought::Awaited
            | Brought::Useless
            | Brought::Joins(_, _)
            | Brought::TooWide
            | Brought::Refused => None,
        }
    }

    /// The body of that response came to this.
    pub fn end_passed(&mut self, end: PassedEnd)
        ensures { self.new ≡ record self.old { brought = brought_to end self.old.brought } }
    {
        if let Brought::Passes(passed) = &mut self.brought {
            passed.end = end;
        }
    }

    /// The client is in the midst of a reply.
    pub fn has_begun(&self) -> bool
        ensures { result ≡ has_begun self.now }
    {
        match self.answer() {
            None => false,
            Some(answer) => answer.has_begun,
        }
    }

    /// Its next byte of the instance that it follows.
    pub fn next(&self) -> Option<Next>
        ensures { result ≡ next_of self.now }
    {
        if self.is_closing {
            return None;
        }
        let answer = self.answer()?;
        let source = answer.source?;
        let at = if answer.has_begun {
            self.client.next_byte()?.1
        } else {
            answer.from
        };
        if at < answer.to {
            Some(Next {
                source,
                at,
                to: answer.to,
            })
        } else {
            None
        }
    }

    /// The bytes of the instance that it follows among the next so many that are said.
    pub fn used_by(&self, n: usize) -> Option<Next>
        ensures { result ≡ used_by n self.now }
    {
        let of_body = n.saturating_sub(self.before_body) as u64;
        if of_body == 0 || !self.has_begun() {
            return None;
        }
        let next = self.next()?;
        Some(Next {
            source: next.source,
            at: next.at,
            to: next.to.min(next.at.saturating_add(of_body)),
        })
    }

    /// Its reply begins with this status, and so many bytes of its head behind what is left of the interim answer. Where
    /// the operator keeps a log, that is what it is to say; the line is empty where memory is refused for it.
    pub fn begin_account(&mut self, alloc: Global, status: u16, head_len: usize)
        ensures account { self.new ≡ record self.old { account = begun (line_in self.new.account) status (min (self.old.before_body + head_len) (2 ^ 64 - 1)) self.old.account } }
        ensures line { HasLine self.old.account (line_in self.new.account) (line_of (current_of self.old.client.heard)) }
    {
        match self.account {
            Account::Unkept | Account::Begun(_) => {}
            Account::Due(_) => {
                let line = line_of(alloc, &self.client);
                let head_left = self.before_body.saturating_add(head_len);
                self.account.begin(line, status, head_left);
            }
        }
    }

    /// So many bytes were said.
    pub fn took(&mut self, n: usize)
        requires { n ≤ left_next self.old.client.reply }
        ensures { self.new ≡ told_by n self.old }
    {
        self.before_body = self.before_body.saturating_sub(n);
        self.account.say(n);
        self.client.took(n);
    }

    /// Its reply is past its head.
    pub fn is_at_body(&self) -> bool
        ensures { result ≡ is_at_body self.now }
    {
        self.has_begun() && self.before_body == 0
    }

    /// More may be asked for its request.
    pub fn is_trying(&self) -> bool
        ensures { result ≡ is_trying_in self.now.course }
    {
        match self.course {
            Course::Trying(_) => true,
            Course::OutOfTries | Course::AskTooLong => false,
        }
    }

    /// An attempt is lost, of so many.
    pub fn lose_attempt(&mut self, most: u8)
        ensures { self.new ≡ record self.old { course = lost_one most self.old.course } }
    {
        if let Course::Trying(n) = self.course {
            self.course = if u16::from(most) <= u16::from(n) + 1 {
                Course::OutOfTries
            } else {
                Course::Trying(n + 1)
            };
        }
    }

    /// The row whose hole nobody filled was cleared. Where the reply has not begun, its request is decided again
    /// without it, once, and its attempts count anew.
    pub fn lose_row(&mut self)
        ensures { self.new ≡ without_row self.old }
    {
        if !self.has_begun() && !self.has_given_up {
            self.course = Course::Trying(0);
            self.has_given_up = true;
        }
    }

    /// The row was cleared, since it may not be shared: the same. Where a row was cleared for the request before, an
    /// attempt is lost: an origin that gives everybody a short part and the rest to one alone would be asked without end.
    pub fn lose_shared_row(&mut self, most: u8)
        ensures { self.new ≡ without_shared_row most self.old }
    {
        if self.has_given_up && !self.has_begun() {
            self.lose_attempt(most);
        } else {
            self.lose_row();
        }
    }

    /// It sent no whole head, and may send more: until it does, or the clock ticks, a turn has nothing to do for it.
    pub fn is_silent(&self) -> bool
        ensures { result ≡ is_silent self.now }
    {
        matches!(self.stage, Stage::Undecided)
            && !self.front.is_there()
            && !self.has_hung_up
            && !self.is_closing
    }

    /// Nothing that it sent is left to answer: no request, or one whose body stays short.
    pub fn is_finished(&self) -> bool
        ensures { result ≡ finished_in self.now }
    {
        let is_short = (self.client.body().len() as u64) < self.body_left;
        self.has_hung_up && !self.is_closing && (!self.front.is_there() || is_short)
    }

    /// The rest of the request's body, which nobody reads, is dropped as it comes.
    pub fn drop_body(&mut self)
        ensures { self.new ≡ without_body self.old }
    {
        self.client.drop_body();
        self.body_left = 0;
    }

    /// Its reply is over: the next request stands.
    pub fn next_request(&mut self)
        ensures { self.new ≡ at_next_request self.old }
    {
        self.front = Front::NoHeadYet;
        self.body_left = 0;
        self.index = self.index.saturating_add(1);
        self.stage = Stage::Undecided;
        self.waits_on = None;
        self.brought = Brought::Awaited;
        self.course = Course::Trying(0);
        self.has_given_up = false;
        self.before_body = 0;
        self.closes = false;
        self.account.renew();
    }
}
