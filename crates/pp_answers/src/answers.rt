// What the head of a response does to the row of its key, and what its client is told (RFC 2616, sections
// 10.3.5, 13.5, 13.10 and 13.11; RFC 7233, sections 4.1 and 4.3).
ghost use Rattle.std.specs.Prelude.{◌≡◌, nat_eq, ◌==◌, is_some};
ghost use Rattle.pp_head.specs.Shown.{shown_response};
ghost use Rattle.std.specs.List.{list_any, starts_with};
ghost use Rattle.pp_text.specs.Bytes.{lower};
ghost use Rattle.pp_seats.specs.Courses.{without_shared_row};
ghost use Rattle.pp_answers.specs.Answers.{not_shared, on_its};
ghost use Rattle.pp_state.specs.Ends.{made_useless, numbers_of, parts, told, told_to, unusable, AreSeated, KeepsRest};
ghost use Rattle.pp_client.specs.Requests.{current_of};
ghost use Rattle.pp_flow.specs.Changes.{entry_of};
ghost use Rattle.pp_answers.specs.FinalHeads.{AnswersAsk, FillsHead, PassesHead, TakesAim, TakesHead, TakesOwn, TakesPart, answer_to, cleared_by, counted, first_of, first_shown, is_lacked, is_widened, lacks_next, lacks_row, other_head, other_part, part_without_version, relayed, roomed, roomed_by, roomed_for, rule_for, shared_part, version_in, widened, without_version};
ghost use Rattle.pp_state.specs.Keys.{cleared, key_of};
ghost use Rattle.pp_answers.specs.Rows.{is_bound};
ghost use Rattle.pp_answers.specs.OwnHeads.{clears_row, is_multipart_type, is_private_part, is_wrong, is_wrong_for, is_wrong_part};
ghost use Rattle.pp_reply.specs.Texts.{KeepsHeadLimits};

use crate::outdated::clear_outdated;
use crate::rows::{not_modified, settle};
use pp_client::Current;
use pp_flow::{Aim, Errand, Exchange, Kind};
use pp_framing::{BodyRule, rule};
use pp_fresh::may_store;
use pp_head::ResponseHead;
use pp_objects::ObjectId;
use pp_plan::span;
use pp_seats::{Brought, Next, Seat};
use pp_state::{State, is_same};
use pp_text::{FieldValues, same};
use pp_valid::{Version, version_of};

/// The type of a body that has several parts (RFC 7233, section 4.1).
const MULTIPART: &[u8] = b"multipart/byteranges";

/// The final head of the exchange's response came. False where it answers no ask of this kind.
pub fn take_head(state: &mut State, number: u64, head: &ResponseHead<'_, '_>) -> bool
    requires { KeepsHeadLimits (shown_response head.now) }
    ensures answers { result ≡ is_some (answer_to (shown_response head.now) (entry_of number state.old.flow)) }
    ensures is { AreSeated state.old → AnswersAsk number (shown_response head.now) (answer_to (shown_response head.now) (entry_of number state.old.flow)) state.old (parts state.new) }
    ensures numbers { numbers_of state.new.seats.items ≡ numbers_of state.old.seats.items }
    ensures rest { KeepsRest (roomed_by (shown_response head.now) (answer_to (shown_response head.now) (entry_of number state.old.flow)) state.old) state.new }
{
    let Some(entry) = state.flow.entry(number) else {
        return false;
    };
    let (e, errand) = (entry.exchange, entry.errand);
    match rule_for(&e, &errand, head) {
        None => false,
        Some(rule) => {
            take_body(state, number, &e, &errand, head, rule);
            true
        }
    }
}

fn take_body(
    state: &mut State,
    number: u64,
    e: &Exchange,
    errand: &Errand,
    head: &ResponseHead<'_, '_>,
    rule: BodyRule,
)
    requires { KeepsHeadLimits (shown_response head.now) }
    ensures is { AreSeated state.old → TakesHead number e.now errand.now (shown_response head.now) rule state.old (parts state.new) }
    ensures numbers { numbers_of state.new.seats.items ≡ numbers_of state.old.seats.items }
    ensures rest { KeepsRest (roomed_for e.now.aim errand.now (shown_response head.now) e.now.number state.old) state.new }
{
    take_by_aim(state, e, errand, head, rule);
    state.note_body(number);
}

fn take_by_aim(
    state: &mut State,
    e: &Exchange,
    errand: &Errand,
    head: &ResponseHead<'_, '_>,
    rule: BodyRule,
)
    requires { KeepsHeadLimits (shown_response head.now) }
    ensures is { AreSeated state.old → TakesAim e.now.aim e.now errand.now (shown_response head.now) rule state.old (parts state.new) }
    ensures numbers { numbers_of state.new.seats.items ≡ numbers_of state.old.seats.items }
    ensures rest { KeepsRest (roomed_for e.now.aim errand.now (shown_response head.now) e.now.number state.old) state.new }
{
    match e.aim {
        Aim::Pass => pass_head(state, e, errand, head, rule),
        Aim::Own => own_head(state, e, errand, head, rule),
        Aim::Hole(_, _, _) => part_head(state, e, errand, head, rule),
    }
}

// ---- to a Fetch or Validate

fn own_head(
    state: &mut State,
    e: &Exchange,
    errand: &Errand,
    head: &ResponseHead<'_, '_>,
    rule: BodyRule,
)
    requires { KeepsHeadLimits (shown_response head.now) }
    ensures is { AreSeated state.old → TakesOwn e.now errand.now (shown_response head.now) rule (version_in errand.now (shown_response head.now)) state.old (parts state.new) }
    ensures numbers { numbers_of state.new.seats.items ≡ numbers_of state.old.seats.items }
    ensures rest { KeepsRest (roomed (version_in errand.now (shown_response head.now)) e.now.number state.old) state.new }
{
    match version_of(&head.fields, head.status, errand.accepts_only_identity) {
        Some(version) => settle(state, e, errand, head, &version),
        None => own_without_version(state, e, errand, head, rule),
    }
}

fn own_without_version(
    state: &mut State,
    e: &Exchange,
    errand: &Errand,
    head: &ResponseHead<'_, '_>,
    rule: BodyRule,
)
    requires { KeepsHeadLimits (shown_response head.now) }
    ensures is { AreSeated state.old → parts state.new ≡ without_version ((shown_response head.now).status == 304) e.now errand.now (shown_response head.now) rule state.old }
    ensures numbers { numbers_of state.new.seats.items ≡ numbers_of state.old.seats.items }
    ensures rest { KeepsRest state.old state.new }
{
    if head.status == 304 {
        not_modified(state, e, errand, head);
    } else {
        other_head(state, e, errand, head, rule);
    }
}

// ---- to the ask of a follower

/// What it brings may be of no use to it all the same, of the version that its ask names or of another ("the server
/// SHOULD ignore the Range header field" then: RFC 7233, section 3.2).
fn part_head(
    state: &mut State,
    e: &Exchange,
    errand: &Errand,
    head: &ResponseHead<'_, '_>,
    rule: BodyRule,
)
    requires { KeepsHeadLimits (shown_response head.now) }
    ensures is { AreSeated state.old → FillsHead e.now errand.now (shown_response head.now) rule state.old (parts state.new) }
    ensures numbers { numbers_of state.new.seats.items ≡ numbers_of state.old.seats.items }
    ensures rest { KeepsRest (roomed (version_in errand.now (shown_response head.now)) e.now.number state.old) state.new }
{
    take_part(state, e, errand, head, rule);
    count_elsewhere(state, e);
}

fn take_part(
    state: &mut State,
    e: &Exchange,
    errand: &Errand,
    head: &ResponseHead<'_, '_>,
    rule: BodyRule,
)
    requires { KeepsHeadLimits (shown_response head.now) }
    ensures is { AreSeated state.old → TakesPart e.now errand.now (shown_response head.now) rule (version_in errand.now (shown_response head.now)) state.old (parts state.new) }
    ensures numbers { numbers_of state.new.seats.items ≡ numbers_of state.old.seats.items }
    ensures rest { KeepsRest (roomed (version_in errand.now (shown_response head.now)) e.now.number state.old) state.new }
{
    match version_of(&head.fields, head.status, errand.accepts_only_identity) {
        Some(version) => settle(state, e, errand, head, &version),
        None => part_without_version(state, e, errand, head, rule),
    }
}

fn part_without_version(
    state: &mut State,
    e: &Exchange,
    errand: &Errand,
    head: &ResponseHead<'_, '_>,
    rule: BodyRule,
)
    requires { KeepsHeadLimits (shown_response head.now) }
    ensures is { AreSeated state.old → parts state.new ≡ part_without_version ((shown_response head.now).status == 304) e.now errand.now (shown_response head.now) rule state.old }
    ensures numbers { numbers_of state.new.seats.items ≡ numbers_of state.old.seats.items }
    ensures rest { KeepsRest state.old state.new }
{
    if head.status == 304 {
        not_modified(state, e, errand, head);
    } else {
        other_part(state, e, errand, head, rule);
    }
}

fn other_part(
    state: &mut State,
    e: &Exchange,
    errand: &Errand,
    head: &ResponseHead<'_, '_>,
    rule: BodyRule,
)
    requires { KeepsHeadLimits (shown_response head.now) }
    ensures is { AreSeated state.old → parts state.new ≡ other_part (is_private_part (shown_response head.now)) state.old.name.items e.now errand.now (shown_response head.now) rule (parts state.old) }
    ensures numbers { numbers_of state.new.seats.items ≡ numbers_of state.old.seats.items }
    ensures rest { KeepsRest state.old state.new }
{
    if is_private_part(head) {
        not_shared(state, e, errand);
    } else {
        shared_part(state, e, head, rule);
    }
}

fn shared_part(state: &mut State, e: &Exchange, head: &ResponseHead<'_, '_>, rule: BodyRule)
    requires { KeepsHeadLimits (shown_response head.now) }
    ensures is { AreSeated state.old → parts state.new ≡ shared_part (clears_row (shown_response head.now)) state.old.name.items e.now (shown_response head.now) rule (parts state.old) }
    ensures numbers { numbers_of state.new.seats.items ≡ numbers_of state.old.seats.items }
    ensures rest { KeepsRest state.old state.new }
{
    if clears_row(head) {
        state.clear_row(e);
        relay_head(state, e, head, rule);
    } else {
        useless(state, e);
    }
}

/// What it brings is no use for its own follower.
fn count_elsewhere(state: &mut State, e: &Exchange)
    ensures is { AreSeated state.old → parts state.new ≡ counted e.now (parts state.old) }
    ensures numbers { numbers_of state.new.seats.items ≡ numbers_of state.old.seats.items }
    ensures rest { KeepsRest state.old state.new }
{
    if is_bound(state, e) && lacks_next(state, e) {
        state.lose_attempt(e);
    }
}

/// What the exchange brings belongs to an instance.
fn is_bound(state: &State, e: &Exchange) -> bool
    ensures { result ≡ is_bound e.now.number state.entry.now.flow }
{
    match state.flow.entry(e.number) {
        None => false,
        Some(entry) => entry.exchange.bound.is_some(),
    }
}

/// The exchange's own client still lacks what it is to be said next, of the row that stands. A reply that has begun
/// goes on by its own version alone, and before that its request is shown what it asks for of that row.
fn lacks_next(state: &State, e: &Exchange) -> bool
    ensures { AreSeated state.entry.now → result ≡ lacks_next e.now.number (parts state.entry.now) }
{
    match state.asker_of(e.number) {
        None => false,
        Some(seat) => lacks_row(state, seat, seat.next(), state.row_of(e)),
    }
}

fn lacks_row(
    state: &State,
    seat: &Seat,
    next: Option<Next>,
    row: Option<(ObjectId, Version)>,
) -> bool
    ensures { result ≡ lacks_row next row seat.now (parts state.entry.now) }
{
    let Some(next) = next else {
        return false;
    };
    let Some(row) = row else {
        return false;
    };
    if seat.has_begun() {
        is_same(next.source, row.0) && is_lacked(state, Some(next))
    } else {
        is_lacked(state, first_shown(seat, &row))
    }
}

fn is_lacked(state: &State, next: Option<Next>) -> bool
    ensures { result ≡ is_lacked next (parts state.entry.now) }
{
    match next {
        None => false,
        Some(next) => !state.is_provided(&next),
    }
}

// ---- what the request of the exchange is told

/// It is told where it did not leave the exchange, and has no reply yet.
#[tactic(auto, using(pp_state::proofs::SeatsLemmas::changed_here, pp_state::proofs::SeatsLemmas::set_numbers))]
pub(crate) fn tell(state: &mut State, e: &Exchange, brought: Brought)
    ensures is { AreSeated state.old → parts state.new ≡ told_to e.now brought (parts state.old) }
    ensures cache { state.new.cache ≡ state.old.cache }
    ensures numbers { numbers_of state.new.seats.items ≡ numbers_of state.old.seats.items }
    ensures rest { KeepsRest state.old state.new }
{
    if let Some(i) = state.seat_for(e) {
        tell_seat(&mut state.seats[i], brought);
    }
}

/// An answer that is of no use loses an attempt.
pub(crate) fn useless(state: &mut State, e: &Exchange)
    ensures is { AreSeated state.old → parts state.new ≡ made_useless e.now (parts state.old) }
    ensures numbers { numbers_of state.new.seats.items ≡ numbers_of state.old.seats.items }
    ensures rest { KeepsRest state.old state.new }
{
    state.lose_attempt(e);
    unusable(state, e);
}

/// What forbids sharing is never shared: its row is cleared, and its request is decided again without it.
pub(crate) fn not_shared(state: &mut State, e: &Exchange, errand: &Errand)
    ensures is { AreSeated state.old → parts state.new ≡ not_shared e.now errand.now (parts state.old) }
    ensures numbers { numbers_of state.new.seats.items ≡ numbers_of state.old.seats.items }
    ensures rest { KeepsRest state.old state.new }
    ensures cache { state.new.cache ≡ cleared (key_of e.now.number state.old.flow) state.old.cache }
{
    state.clear_row(e);
    lose_shared_row(state, e, errand.attempts());
    unusable(state, e);
}

#[tactic(auto, using(pp_state::proofs::SeatsLemmas::changed_here, pp_state::proofs::SeatsLemmas::set_numbers, crate::proofs::AnswerLemmas::shared_row_number))]
fn lose_shared_row(state: &mut State, e: &Exchange, most: u8)
    ensures is { AreSeated state.old → parts state.new ≡ on_its e.now (without_shared_row most) (parts state.old) }
    ensures cache { state.new.cache ≡ state.old.cache }
    ensures numbers { numbers_of state.new.seats.items ≡ numbers_of state.old.seats.items }
    ensures rest { KeepsRest state.old state.new }
{
    if let Some(i) = state.seat_for(e) {
        state.seats[i].lose_shared_row(most);
    }
}

/// What comes is dropped, and its request is decided again.
fn unusable(state: &mut State, e: &Exchange)
    ensures is { AreSeated state.old → parts state.new ≡ unusable e.now (parts state.old) }
    ensures cache { state.new.cache ≡ state.old.cache }
    ensures numbers { numbers_of state.new.seats.items ≡ numbers_of state.old.seats.items }
    ensures rest { KeepsRest state.old state.new }
{
    state.flow.bind(e.number, None);
    tell(state, e, Brought::Useless);
}

// ---- a response without a version

/// To a Fetch or Validate: it is relayed. Ours: a part that was asked for from before the client's range
/// is read and dropped, and the request is passed.
fn other_head(
    state: &mut State,
    e: &Exchange,
    errand: &Errand,
    head: &ResponseHead<'_, '_>,
    rule: BodyRule,
)
    requires { KeepsHeadLimits (shown_response head.now) }
    ensures is { AreSeated state.old → parts state.new ≡ other_head state.old.name.items e.now errand.now (shown_response head.now) rule (parts state.old) }
    ensures numbers { numbers_of state.new.seats.items ≡ numbers_of state.old.seats.items }
    ensures rest { KeepsRest state.old state.new }
{
    clear_by(state, e, head);
    if is_widened(errand, head) {
        widen(state, e);
    } else {
        relay_head(state, e, head, rule);
    }
}

fn clear_by(state: &mut State, e: &Exchange, head: &ResponseHead<'_, '_>)
    ensures is { parts state.new ≡ cleared_by e.now (shown_response head.now) (parts state.old) }
    ensures numbers { numbers_of state.new.seats.items ≡ numbers_of state.old.seats.items }
    ensures rest { KeepsRest state.old state.new }
{
    if clears_row(head) || is_private_part(head) {
        state.clear_row(e);
    }
}

fn widen(state: &mut State, e: &Exchange)
    ensures is { AreSeated state.old → parts state.new ≡ widened e.now (parts state.old) }
    ensures numbers { numbers_of state.new.seats.items ≡ numbers_of state.old.seats.items }
    ensures rest { KeepsRest state.old state.new }
{
    state.flow.bind(e.number, None);
    tell(state, e, Brought::TooWide);
}

fn relay_head(state: &mut State, e: &Exchange, head: &ResponseHead<'_, '_>, rule: BodyRule)
    requires { KeepsHeadLimits (shown_response head.now) }
    ensures is { AreSeated state.old → parts state.new ≡ relayed state.old.name.items e.now (shown_response head.now) rule (parts state.old) }
    ensures numbers { numbers_of state.new.seats.items ≡ numbers_of state.old.seats.items }
    ensures rest { KeepsRest state.old state.new }
{
    state.flow.bind(e.number, None);
    state.pass_on(e, head, rule);
}

/// It is passed, whatever it tells of rows.
fn pass_head(
    state: &mut State,
    e: &Exchange,
    errand: &Errand,
    head: &ResponseHead<'_, '_>,
    rule: BodyRule,
)
    requires { KeepsHeadLimits (shown_response head.now) }
    ensures is { AreSeated state.old → PassesHead state.old.name.items e.now errand.now (shown_response head.now) rule (parts state.old) (parts state.new) }
    ensures numbers { numbers_of state.new.seats.items ≡ numbers_of state.old.seats.items }
    ensures rest { KeepsRest state.old state.new }
{
    clear_outdated(state, e, errand, head);
    relay_head(state, e, head, rule);
}

/// Where it is right for what was asked, how its body is delimited.
fn rule_for(e: &Exchange, errand: &Errand, head: &ResponseHead<'_, '_>) -> Option<BodyRule>
    ensures { result ≡ rule_for e.now errand.now (shown_response head.now) }
{
    if is_wrong(&e.aim, &errand.kind, head) {
        return None;
    }
    rule(errand.asks_head, head.status, &head.fields).ok()
}

/// A part that was asked for from before the client's range.
fn is_widened(errand: &Errand, head: &ResponseHead<'_, '_>) -> bool
    ensures { result ≡ is_widened errand.now (shown_response head.now) }
{
    errand.is_moved && head.status == 206
}

/// The first byte that a request is shown of an instance. None where it is shown none.
fn first_shown(seat: &Seat, row: &(ObjectId, Version)) -> Option<Next>
    ensures { result ≡ first_shown (current_of seat.now.client.heard) row.now }
{
    match seat.client.current() {
        Current::Request(head, _) => first_of(row.0, span(&head, &row.1)),
        Current::Nothing | Current::More | Current::Refuse(_) => None,
    }
}

fn first_of(source: ObjectId, span: (u64, u64)) -> Option<Next>
    ensures { result ≡ first_of source span }
{
    let (at, to) = span;
    if at < to {
        Some(Next { source, at, to })
    } else {
        None
    }
}

/// The request of this client is told, where it has no reply yet.
fn tell_seat(seat: &mut Seat, brought: Brought)
    ensures { seat.new ≡ told brought seat.old }
{
    if !seat.has_begun() {
        seat.brought = brought;
    }
}

/// The row was known to be otherwise.
fn clears_row(head: &ResponseHead<'_, '_>) -> bool
    ensures { result ≡ clears_row (shown_response head.now) }
{
    matches!(head.status, 200 | 404 | 410)
}

/// A part that is not to be shared (RFC 2616, section 14.9).
fn is_private_part(head: &ResponseHead<'_, '_>) -> bool
    ensures { result ≡ is_private_part (shown_response head.now) }
{
    head.status == 206 && !may_store(&head.fields)
}

/// Ours: 101 would leave HTTP; one range was asked for; only what was named can be unchanged.
fn is_wrong(aim: &Aim, kind: &Kind, head: &ResponseHead<'_, '_>) -> bool
    ensures { result ≡ is_wrong aim.now kind.now (shown_response head.now) }
{
    head.status == 101 || is_wrong_for(aim, kind, head)
}

fn is_wrong_for(aim: &Aim, kind: &Kind, head: &ResponseHead<'_, '_>) -> bool
    ensures { result ≡ is_wrong_for aim.now kind.now (shown_response head.now) }
{
    match aim {
        Aim::Pass => false,
        Aim::Own => is_wrong_part(head) || (head.status == 304 && kind.named().is_none()),
        Aim::Hole(_, _, _) => is_wrong_part(head),
    }
}

fn is_wrong_part(head: &ResponseHead<'_, '_>) -> bool
    ensures { result ≡ is_wrong_part (shown_response head.now) }
{
    head.status == 206 && is_multipart(head.fields.values(b"content-type"))
}

fn is_multipart(mut types: FieldValues<'_, '_, '_>) -> bool
    ensures { result ≡ list_any is_multipart_type types.entry }
{
    types.any(|value| is_multipart_type(value))
}

fn is_multipart_type(value: &[u8]) -> bool
    ensures { result ≡ is_multipart_type value.now }
{
    begins_with(MULTIPART, value)
}

/// But for the case of letters.
#[tactic(auto, using(crate::proofs::FrontLemmas::front_same))]
fn begins_with(name: &[u8], value: &[u8]) -> bool
    ensures { result ≡ starts_with nat_eq (lower value.now) (lower name.now) }
{
    let len = name.len().min(value.len());
    same(name, &value[..len])
}
