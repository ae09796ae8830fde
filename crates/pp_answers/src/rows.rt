// What a response of a version does to the row of its key (RFC 2616, sections 10.3.5 and 13.5.4; RFC 7233,
// section 4.1).
ghost use Rattle.std.specs.Prelude.{◌≡◌, false};
ghost use Rattle.pp_fresh.specs.Ready.{may_store};
ghost use Rattle.pp_state.specs.Keys.{cleared, key_of};
ghost use Rattle.pp_answers.specs.Heads.{ignores_range, is_full_answer, names_tag, told_unchanged};
ghost use Rattle.pp_answers.specs.Rows.{MakesRowOf, Settles, SettlesRow, is_same_version, joining, may_join, not_modified, refreshed_row, refused_row, refusing, renewed, settled_on, times_for, with_room_for};
ghost use Rattle.pp_state.specs.Known.{row_for};
ghost use Rattle.pp_answers.specs.OwnHeads.{span_to_come};
ghost use Rattle.pp_flow.specs.Errands.{named_by};
ghost use Rattle.pp_head.specs.Shown.{shown_response};
ghost use Rattle.pp_state.specs.Ends.{AreSeated, KeepsRest, numbers_of, parts};

use crate::answers::{not_shared, tell, useless};
use pp_flow::{Aim, Errand, Exchange, Kind};
use pp_fresh::{Times, may_store, times_of};
use pp_head::ResponseHead;
use pp_objects::ObjectId;
use pp_seats::Brought;
use pp_state::{State, forget_refused};
use pp_text::{Fields, OutOfMemory};
use pp_valid::{ContentRange, Version, names_other_tag, read_content_range};
use pp_world::Source;

/// What a 304 says of the row of its key (RFC 2616, sections 10.3.5 and 14.9).
#[derive(Clone, Copy, Debug, PartialEq, Eq)]
enum Unchanged {
    /// It forbids sharing.
    NotShared,
    /// It is of another version.
    OfAnother,
    /// It is of the version of this row, which its ask named.
    OfRow(ObjectId),
    /// There is no row, or its ask named another version.
    OfNothing,
}

/// "An implementation MUST NOT combine" parts of two versions: another one makes a new row, in the place of
/// the former, whose room it takes.
pub(crate) fn settle(
    state: &mut State,
    e: &Exchange,
    errand: &Errand,
    head: &ResponseHead<'_, '_>,
    version: &Version,
)
    ensures is { AreSeated state.old → Settles e.now errand.now (shown_response head.now) version.now state.old.now (row_for e.now.number (parts state.old)) (parts (with_room_for (row_for e.now.number (parts state.old)) state.old)) (parts state.new) }
    ensures numbers { numbers_of state.new.seats.items ≡ numbers_of state.old.seats.items }
    ensures rest { KeepsRest (with_room_for (row_for e.now.number (parts state.old)) state.old) state.new }
{
    match state.row_of(e) {
        None => {
            state.make_room_for_row();
            make_row(state, e, errand, head, version);
        }
        Some(row) => settle_row(state, e, errand, head, version, &row),
    }
}

fn settle_row(
    state: &mut State,
    e: &Exchange,
    errand: &Errand,
    head: &ResponseHead<'_, '_>,
    version: &Version,
    row: &(ObjectId, Version),
)
    ensures is { AreSeated state.old → SettlesRow e.now errand.now (shown_response head.now) version.now state.old.now (may_join e.now.aim errand.now.kind (shown_response head.now) version.now row.now.1) row.now.0 (parts state.old) (parts state.new) }
    ensures numbers { numbers_of state.new.seats.items ≡ numbers_of state.old.seats.items }
    ensures rest { KeepsRest state.old state.new }
{
    if may_join(&e.aim, &errand.kind, head, version, &row.1) {
        renew(state, e, errand, head, version, row.0);
    } else {
        make_row(state, e, errand, head, version);
    }
}

/// What changes with each response is taken over, if there is room for it.
fn renew(
    state: &mut State,
    e: &Exchange,
    errand: &Errand,
    head: &ResponseHead<'_, '_>,
    version: &Version,
    id: ObjectId,
)
    ensures is { AreSeated state.old → parts state.new ≡ renewed e.now errand.now (shown_response head.now) version.now id state.old.now (parts state.old) }
    ensures numbers { numbers_of state.new.seats.items ≡ numbers_of state.old.seats.items }
    ensures rest { KeepsRest state.old state.new }
{
    let times = times_for(errand, head, state.now);
    if state.cache.refresh(id, &head.fields, times) {
        settle_on(state, e, errand, head, version, id);
    } else {
        useless(state, e);
    }
}

fn make_row(
    state: &mut State,
    e: &Exchange,
    errand: &Errand,
    head: &ResponseHead<'_, '_>,
    version: &Version,
)
    ensures is { AreSeated state.old → MakesRowOf e.now errand.now (shown_response head.now) version.now state.old.now (key_of e.now.number state.old.flow) (parts state.old) (parts state.new) }
    ensures numbers { numbers_of state.new.seats.items ≡ numbers_of state.old.seats.items }
    ensures rest { KeepsRest state.old state.new }
{
    let times = times_for(errand, head, state.now);
    let Some(key) = state.flow.key(e.number) else {
        return;
    };
    match state
        .cache
        .settle(state.alloc, key, version, &head.fields, times)
    {
        Ok(id) => {
            forget_refused(&mut state.refused, &mut state.seats, key);
            settle_on(state, e, errand, head, version, id);
        }
        Err(OutOfMemory) => refuse_row(state, e),
    }
}

/// Its body belongs to the row of its key.
fn settle_on(
    state: &mut State,
    e: &Exchange,
    errand: &Errand,
    head: &ResponseHead<'_, '_>,
    version: &Version,
    id: ObjectId,
)
    ensures is { AreSeated state.old → parts state.new ≡ settled_on e.now errand.now (shown_response head.now) version.now id (parts state.old) }
    ensures numbers { numbers_of state.new.seats.items ≡ numbers_of state.old.seats.items }
    ensures rest { KeepsRest state.old state.new }
{
    let (from, to) = span_to_come(head, version);
    let all = ignores_range(&errand.kind, head.status, version);
    let is_plain = !head.fields.has(b"age");
    join_row(state, e, (id, from, to, all), Source::Fetched, is_plain);
}

/// The body belongs to an instance, and so its request is told; and whether no Age was told.
fn join_row(
    state: &mut State,
    e: &Exchange,
    span: (ObjectId, u64, u64, bool),
    source: Source,
    is_plain: bool,
)
    ensures is { AreSeated state.old → parts state.new ≡ joining e.now span source is_plain (parts state.old) }
    ensures numbers { numbers_of state.new.seats.items ≡ numbers_of state.old.seats.items }
    ensures rest { KeepsRest state.old state.new }
{
    state.flow.bind(e.number, Some(span));
    state.account_brought(e, source);
    tell(state, e, Brought::Joins(span.0, is_plain));
}

/// Memory was refused for the row: its request is refused, and this life goes astray.
fn refuse_row(state: &mut State, e: &Exchange)
    ensures is { AreSeated state.old → parts state.new ≡ refused_row e.now (parts state.old) }
    ensures numbers { numbers_of state.new.seats.items ≡ numbers_of state.old.seats.items }
    ensures rest { KeepsRest state.old state.new }
{
    state.clear_row(e);
    note_refused(state, e.number);
    state.flow.bind(e.number, None);
    tell(state, e, Brought::Refused);
    state.is_astray = true;
}

fn note_refused(state: &mut State, number: u64)
    ensures is { parts state.new ≡ refusing number (parts state.old) }
    ensures seats { state.new.seats ≡ state.old.seats }
    ensures rest { KeepsRest state.old state.new }
{
    if let Some(key) = state.flow.key(number) {
        state.refused.note(key);
    }
}

/// Where it forbids sharing, the row is cleared; where it is of another version, "the cache MUST disregard the
/// response and repeat the request without the conditional", which is another attempt.
pub(crate) fn not_modified(
    state: &mut State,
    e: &Exchange,
    errand: &Errand,
    head: &ResponseHead<'_, '_>,
)
    ensures is { AreSeated state.old → parts state.new ≡ not_modified e.now errand.now (shown_response head.now) state.old.now (parts state.old) }
    ensures numbers { numbers_of state.new.seats.items ≡ numbers_of state.old.seats.items }
    ensures rest { KeepsRest state.old state.new }
    ensures cache { may_store head.now.fields ≡ false → state.new.cache ≡ cleared (key_of e.now.number state.old.flow) state.old.cache }
{
    match told_unchanged(&head.fields, &errand.kind, state.row_of(e)) {
        Unchanged::NotShared => not_shared(state, e, errand),
        Unchanged::OfAnother => {
            state.clear_row(e);
            useless(state, e);
        }
        Unchanged::OfRow(id) => refresh_row(state, e, errand, head, id),
        Unchanged::OfNothing => useless(state, e),
    }
}

/// Nothing of a body comes.
fn refresh_row(
    state: &mut State,
    e: &Exchange,
    errand: &Errand,
    head: &ResponseHead<'_, '_>,
    id: ObjectId,
)
    ensures is { AreSeated state.old → parts state.new ≡ refreshed_row e.now errand.now (shown_response head.now) id state.old.now (parts state.old) }
    ensures numbers { numbers_of state.new.seats.items ≡ numbers_of state.old.seats.items }
    ensures rest { KeepsRest state.old state.new }
{
    let times = times_for(errand, head, state.now);
    if state.cache.refresh(id, &head.fields, times) {
        join_row(state, e, (id, 0, 0, false), Source::Checked, false);
    } else {
        useless(state, e);
    }
}

/// When the response was asked for and came, and how long it is fresh.
fn times_for(errand: &Errand, head: &ResponseHead<'_, '_>, clock: u64) -> Times
    ensures { result ≡ times_for errand.now (shown_response head.now) clock }
{
    times_of(&head.fields, errand.requested, clock, errand.allows_guess)
}

/// Parts of one version, where it is not a new one.
fn may_join(
    aim: &Aim,
    kind: &Kind,
    head: &ResponseHead<'_, '_>,
    version: &Version,
    known: &Version,
) -> bool
    ensures { result ≡ may_join aim.now kind.now (shown_response head.now) version.now known.now }
{
    is_same_version(version, known) && !is_full_answer(aim, head.status, kind, known)
}

fn is_same_version(version: &Version, known: &Version) -> bool
    ensures { result ≡ is_same_version version.now known.now }
{
    version.tag.as_slice() == known.tag.as_slice() && version.length == known.length
}

/// What forbids sharing is never shared, and a 304 has to name the version of the row.
fn told_unchanged(
    fields: &Fields<'_, '_>,
    kind: &Kind,
    known: Option<(ObjectId, Version)>,
) -> Unchanged
    ensures { result ≡ told_unchanged fields.now kind.now known }
{
    if !may_store(fields) {
        return Unchanged::NotShared;
    }
    let Some((id, version)) = known else {
        return Unchanged::OfNothing;
    };
    if names_other_tag(fields, &version.tag) {
        Unchanged::OfAnother
    } else if names(kind, &version) {
        Unchanged::OfRow(id)
    } else {
        Unchanged::OfNothing
    }
}

/// "A full response indicates that none of the stored responses nominated in the conditional request are
/// suitable" (RFC 7234, section 4.3.3): it is a new version, whatever its tag.
fn is_full_answer(aim: &Aim, status: u16, kind: &Kind, known: &Version) -> bool
    ensures { result ≡ is_full_answer aim.now status kind.now known.now }
{
    match aim {
        Aim::Own => status == 200 && names(kind, known),
        Aim::Hole(_, _, _) | Aim::Pass => false,
    }
}

/// "A server MAY ignore the Range header field" (RFC 7233, section 3.1): a part was asked for, and the whole comes.
/// For another version than its ask names it has to (section 3.2).
fn ignores_range(kind: &Kind, status: u16, version: &Version) -> bool
    ensures { result ≡ ignores_range kind.now status version.now }
{
    match kind {
        Kind::Range(_, _) => status == 200,
        Kind::Hole(_, _, tag) => status == 200 && tag.as_slice() == version.tag.as_slice(),
        Kind::Whole | Kind::Check(_) | Kind::Pass => false,
    }
}

fn names(kind: &Kind, version: &Version) -> bool
    ensures { result ≡ names_tag (named_by kind.now) version.now.tag }
{
    match kind.named() {
        None => false,
        Some(tag) => tag.as_slice() == version.tag.as_slice(),
    }
}

/// Of a part these are in Content-Range, and else it is all (RFC 7233, section 4.2).
fn span_to_come(head: &ResponseHead<'_, '_>, version: &Version) -> (u64, u64)
    ensures { result ≡ span_to_come (shown_response head.now) version.now }
{
    let range = if head.status == 206 {
        read_content_range(&head.fields)
    } else {
        None
    };
    match range {
        Some(ContentRange::Span(first, last, _)) => (first, last.saturating_add(1)),
        Some(ContentRange::Unsatisfied(_)) | None => (0, version.length),
    }
}
