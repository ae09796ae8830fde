// A response that is passed to a client, spelled anew (RFC 2616, sections 3.6.1 and 13.5).
ghost use Rattle.std.specs.Prelude.{◌≡◌, ◌≤◌, IsTrue, length};
ghost use Rattle.pp_client.specs.Clients.{IsAnswerable};
ghost use Rattle.pp_head.specs.Shown.{shown_response};
ghost use Rattle.pp_reply.specs.Texts.{KeepsHeadLimits};
ghost use Rattle.pp_state.specs.Bodies.{on_asker, is_passed};
ghost use Rattle.pp_state.specs.Ends.{AreSeated, numbers_of};
ghost use Rattle.pp_state.specs.Passing.{is_coded, may_answer, passed_to};

use crate::state::State;
use pp_client::Client;
use pp_flow::Exchange;
use pp_framing::BodyRule;
use pp_head::ResponseHead;
use pp_reply::{ReplyKind, write_reply};
use pp_seats::{Brought, Passed, PassedEnd, Seat, is_answerable};

impl State {
    /// The response goes on to the client that asked it, where no reply has begun: its head is written.
    #[tactic(auto, using(crate::proofs::PlacesLemmas::changed_here, crate::proofs::PlacesLemmas::same_numbers))]
    pub fn pass_on(&mut self, e: &Exchange, head: &ResponseHead<'_, '_>, rule: BodyRule)
        requires { KeepsHeadLimits (shown_response head.now) }
        ensures seats { AreSeated self.old → self.new.seats.items ≡ on_asker e.now (passed_to self.old.name.items (shown_response head.now) rule) self.old.seats.items }
        ensures numbers { numbers_of self.new.seats.items ≡ numbers_of self.old.seats.items }
        ensures rest { record self.new { seats = self.old.seats } ≡ self.old }
    {
        if let Some(i) = self.seat_for(e) {
            pass_to(&mut self.seats[i], self.name.as_slice(), head, rule);
        }
    }

    /// The response is passed to the client of the exchange.
    pub(crate) fn is_passed(&self, e: &Exchange) -> bool
        ensures { AreSeated self.entry.now → result ≡ is_passed e.now self.entry.now.seats.items }
    {
        match self.seat_for(e) {
            None => false,
            Some(i) => self.seats[i].passed().is_some(),
        }
    }
}

/// Its head is written, and its body will go through the pipe.
fn pass_to(seat: &mut Seat, name: &[u8], head: &ResponseHead<'_, '_>, rule: BodyRule)
    requires limits { KeepsHeadLimits (shown_response head.now) }
    requires name { length name.now ≤ 64 }
    ensures { seat.new ≡ passed_to name.now (shown_response head.now) rule seat.old }
{
    let Some(asked) = seat.front.asked() else {
        return;
    };
    let (minor, is_head, keep) = (asked.minor, asked.is_head, asked.keeps_open);
    if !may_answer(&seat.client) {
        return;
    }
    let kind = ReplyKind::Passed(rule, minor, is_head);
    let text = seat.client.head_room();
    write_reply(&kind, Some(head), name, keep, text);
    let head_len = text.len();
    seat.client.pass().start(is_coded(rule, minor));
    seat.brought = Brought::Passes(Passed {
        status: head.status,
        rule,
        head_len,
        end: PassedEnd::Coming,
    });
}

/// A body whose length is not told goes on in chunks, but not to HTTP/1.0.
fn is_coded(rule: BodyRule, minor: u8) -> bool
    ensures { result ≡ is_coded rule minor }
{
    match rule {
        BodyRule::Empty | BodyRule::Length(_) => false,
        BodyRule::Chunked | BodyRule::ToEnd => minor != 0,
    }
}

/// A request, or what is none, waits for its reply.
#[tactic(auto, using(crate::proofs::PassingLemmas::may_answer_is))]
pub fn may_answer(client: &Client) -> bool
    ensures is { result ≡ may_answer client.now }
    ensures answerable { IsTrue result → IsAnswerable client.now }
{
    is_answerable(client)
}
