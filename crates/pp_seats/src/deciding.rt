// What a decision makes of a client: a page, a wait for its exchange, or a reply by the row (RFC 2616, sections 6 and 8.2.3).
ghost use Rattle.std.specs.Prelude.{◌≡◌, ◌≤◌, IsTrue, length};
ghost use Rattle.pp_client.specs.Clients.{IsAnswerable};
ghost use Rattle.pp_reply.specs.Texts.{has_page};
ghost use Rattle.pp_seats.specs.Decided.{answering, asked_stage, asking, expects_in, page_for, paged, shown_status, with_interim};
ghost use Rattle.pp_seats.specs.Heads.{asked_in};

use crate::account::head_in;
use crate::seat::{Answer, Brought, Course, Seat, Stage};
use pp_client::Begin;
use pp_objects::ObjectId;
use pp_reply::{CONTINUE, ReplyKind, write_reply};
use pp_world::Decision;
use std::alloc::Global;

impl Seat {
    /// The interim answer comes before the reply, once.
    pub fn begin_interim(&mut self)
        ensures { self.new ≡ with_interim self.old }
    {
        let is_first = self.expects_interim() && matches!(self.stage, Stage::Undecided);
        if is_first && self.client.may_interim() {
            self.client.interim();
            self.before_body = self.before_body.saturating_add(CONTINUE.len());
        }
    }

    fn expects_interim(&self) -> bool
        ensures { result ≡ expects_in (asked_in self.now.front) }
    {
        match self.front.asked() {
            None => false,
            Some(asked) => asked.expects_interim,
        }
    }

    /// A page with this status is the reply, and the rest of the request's body is dropped as it comes.
    pub fn give_page(&mut self, alloc: Global, status: u16)
        requires { IsAnswerable self.old.client }
        ensures page { self.new ≡ record (paged status self.old) { account = self.new.account } }
        ensures fits { length (page_for status self.old.front) ≤ 20480 }
    {
        let keep = self.front.keeps_after(status);
        let shown = shown_status(status);
        let kind = ReplyKind::Refusal(shown, self.front.asks_head());
        let text = self.client.head_room();
        write_reply(&kind, None, b"", keep, text);
        let (head_len, len) = (head_in(text.as_slice()), text.len());
        self.begin_account(alloc, shown, head_len);
        self.before_body = self.before_body.saturating_add(len);
        self.client.begin(Begin::Page);
        self.stage = Stage::Answering(Answer {
            decision: Decision::Refuse(status),
            source: None,
            from: 0,
            to: 0,
            has_begun: true,
        });
        self.closes = !keep;
        self.brought = Brought::Awaited;
        self.course = Course::Trying(0);
        self.drop_body();
    }

    /// Its origin is asked: the response is passed, or its request is decided again when the head of that came.
    pub fn ask(&mut self, passes: bool)
        ensures { self.new ≡ asking passes self.old }
    {
        self.stage = asked_stage(passes);
        self.brought = Brought::Awaited;
    }

    /// This is decided, and not begun yet: of this instance, where one is followed, these offsets.
    pub fn decide(&mut self, decision: Decision, source: Option<ObjectId>, span: (u64, u64))
        ensures { self.new ≡ answering decision source span self.old }
    {
        self.stage = Stage::Answering(Answer {
            decision,
            source,
            from: span.0,
            to: span.1,
            has_begun: false,
        });
        self.closes = !self.front.keeps_after(200);
    }
}

fn asked_stage(passes: bool) -> Stage
    ensures { result ≡ asked_stage passes }
{
    if passes {
        Stage::Passing
    } else {
        Stage::Waiting
    }
}

/// One without a page of its own has that of 504.
fn shown_status(status: u16) -> u16
    ensures page { IsTrue (has_page result) }
    ensures is { result ≡ shown_status status }
{
    match status {
        400 => 400,
        411 => 411,
        431 => 431,
        500 => 500,
        502 => 502,
        _ => 504,
    }
}
