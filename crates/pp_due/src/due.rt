// Which decision or cut is due, and which comes first (RFC 2616, section 8.1; the order is ours).
ghost use Rattle.std.specs.Prelude.{◌≡◌, is_some};
ghost use Rattle.pp_due.specs.Entering.{FirstDue, IsDueWithRow};
ghost use Rattle.pp_due.specs.Due.{cut_of, decision_of, due_at, due_of, has_source_standing, is_dry, is_superseded};
ghost use Rattle.pp_seats.specs.Dues.{cause_in, decision_in, due_in, follows, give_up_in, is_idle_in, is_read_in, is_short_in, lost_in, patience_in};

use crate::kept::{bring_row_of, is_due_at, next_on_disk};
use pp_decide::{decide, due_undecided};
use pp_seats::{Answer, Brought, Course, Due, PassedEnd, Seat, Stage};
use pp_shelf::Shelf;
use pp_state::State;
use pp_world::{Cause, Decision};

/// Ours: a client that is idle for so many seconds is cut: in the midst of a reply, where one that reads slowly shows
/// that only once the system's buffer has room again, and elsewhere.
const REPLY_SECONDS: u64 = 900;

const IDLE_SECONDS: u64 = 120;

/// The first client, in the order of their numbers, for whom something is due. Where that is a decision, the kept row that
/// its request names comes into memory before.
pub fn first_due(state: &mut State, shelf: &Shelf) -> Option<(usize, Due)>
    ensures { FirstDue shelf.now state.old.awake.items state.old state.new result }
{
    for turn in 0..state.awake.len() {
        let Some(i) = state.awake_at(turn) else {
            break;
        };
        if let Some(due) = due_with_row(state, shelf, i) {
            return Some((i, due));
        }
    }
    None
}

/// What is due to the client at this place.
fn due_with_row(state: &mut State, shelf: &Shelf, i: usize) -> Option<Due>
    ensures { IsDueWithRow shelf.now i state.old state.new result }
{
    if !is_due_at(state, shelf, i) {
        return None;
    }
    bring_row_of(state, shelf, i);
    due_at(state, i)
}

/// A decision is due to it, by what is in memory of its key.
pub(crate) fn has_decision(state: &State, seat: &Seat) -> bool
    ensures { result ≡ is_some (decision_of state.entry.now seat.now) }
{
    decision_of(state, seat).is_some()
}

fn due_at(state: &State, i: usize) -> Option<Due>
    ensures { result ≡ due_at i state.entry.now }
{
    due_of(state, state.seats.get(i)?)
}

fn due_of(state: &State, seat: &Seat) -> Option<Due>
    ensures { result ≡ due_of state.entry.now seat.now }
{
    let cut = if seat.is_closing {
        None
    } else {
        cut_of(state, seat)
    };
    let may_decide = !seat.is_closing && !state.is_stopped && cut.is_none();
    let decision = if may_decide {
        decision_of(state, seat)
    } else {
        None
    };
    due_by(seat.is_closing, state.is_stopped, cut, decision)
}

/// What came is said before a reply is cut for its origin.
pub(crate) fn cut_of(state: &State, seat: &Seat) -> Option<Cause>
    ensures { result ≡ cut_of state.entry.now seat.now }
{
    let has_begun = seat.has_begun();
    let may_run_dry = has_begun && (is_short(seat) || !seat.is_trying());
    cause_of(
        seat,
        state.is_stopped,
        is_idle(seat, state.is_ticked, state.now),
        may_run_dry && is_dry(state, seat),
        has_begun && is_superseded(state, seat),
    )
}

/// Nothing that came is left to say to it.
pub(crate) fn is_dry(state: &State, seat: &Seat) -> bool
    ensures { result ≡ is_dry state.entry.now seat.now }
{
    state.cache.offer(&seat.client).is_empty() && next_on_disk(state, seat).is_none()
}

/// Another version stands, and of this one nothing more comes.
fn is_superseded(state: &State, seat: &Seat) -> bool
    ensures { result ≡ is_superseded state.entry.now seat.now }
{
    match seat.next() {
        None => false,
        Some(next) => state.cache.is_retired(next.source) && !state.is_provided(&next),
    }
}

/// One that waits, and a reply that has not begun and whose row is replaced, are decided by the row of now.
fn decision_of(state: &State, seat: &Seat) -> Option<Decision>
    ensures { result ≡ decision_of state.entry.now seat.now }
{
    let is_lost = is_lost(seat.answer(), has_source_standing(state, seat));
    let undecided = match seat.stage {
        Stage::Undecided => due_undecided(state, seat),
        Stage::Waiting | Stage::Passing | Stage::Answering(_) => None,
    };
    let decided = if is_read(seat.stage, seat.is_told(), is_lost) {
        decide(state, seat)
    } else {
        None
    };
    decision_by(seat, is_lost, undecided, decided)
}

/// The instance that it follows still stands as the row of its key.
fn has_source_standing(state: &State, seat: &Seat) -> bool
    ensures { result ≡ has_source_standing state.entry.now seat.now }
{
    match seat.answer() {
        None => false,
        Some(answer) => match answer.source {
            None => false,
            Some(id) => !state.cache.is_retired(id),
        },
    }
}

/// A cut comes before a decision; of one that is closing nothing is due, and once all is to be closed no decision.
fn due_by(
    is_closing: bool,
    is_stopped: bool,
    cut: Option<Cause>,
    decision: Option<Decision>,
) -> Option<Due>
    ensures { result ≡ due_in is_closing is_stopped cut decision }
{
    if is_closing {
        return None;
    }
    match cut {
        Some(cause) => Some(Due::CutOff(cause)),
        None => if is_stopped {
            None
        } else {
            match decision {
                None => None,
                Some(decision) => Some(Due::Decide(decision)),
            }
        }
    }
}

/// The row by which it was decided is replaced or cleared, by whether the instance that it follows still stands.
fn is_lost(answer: Option<Answer>, stands: bool) -> bool
    ensures { result ≡ lost_in answer stands }
{
    match answer {
        None => false,
        Some(answer) => follows(answer.decision) && !stands,
    }
}

/// The causes of a cut, in their order: the first that applies.
fn cause_of(
    seat: &Seat,
    is_stopped: bool,
    is_idle: bool,
    is_dry: bool,
    is_superseded: bool,
) -> Option<Cause>
    ensures { result ≡ cause_in is_stopped is_idle seat.now is_dry is_superseded }
{
    let has_begun = seat.has_begun();
    if has_begun && is_stopped {
        Some(Cause::Stop)
    } else if has_begun && is_short(seat) && is_dry {
        Some(Cause::Short)
    } else if has_begun && !seat.is_trying() && is_dry {
        Some(Cause::Origin)
    } else if has_begun && is_superseded {
        Some(Cause::Superseded)
    } else if is_idle {
        Some(Cause::Idle)
    } else {
        None
    }
}

fn is_idle(seat: &Seat, is_ticked: bool, now: u64) -> bool
    ensures { result ≡ is_idle_in is_ticked now seat.now }
{
    let patience = patience_for(seat);
    is_ticked && patience <= now.saturating_sub(seat.client.mark())
}

fn patience_for(seat: &Seat) -> u64
    ensures { result ≡ patience_in seat.now }
{
    if seat.has_begun() {
        REPLY_SECONDS
    } else {
        IDLE_SECONDS
    }
}

/// Its response ended early.
fn is_short(seat: &Seat) -> bool
    ensures { result ≡ is_short_in seat.now.brought }
{
    match seat.passed() {
        None => false,
        Some(passed) => passed.end == PassedEnd::Short,
    }
}

/// By whether its row is lost, and by what is decided of one that may wait for another's answer, and of any.
fn decision_by(
    seat: &Seat,
    is_lost: bool,
    undecided: Option<Decision>,
    decided: Option<Decision>,
) -> Option<Decision>
    ensures { result ≡ decision_in seat.now is_lost undecided decided }
{
    if matches!(seat.brought, Brought::Refused) {
        return Some(Decision::Refuse(500));
    }
    match seat.stage {
        Stage::Undecided => undecided,
        Stage::Waiting => {
            let told = if seat.is_told() { decided } else { None };
            give_up(seat.course, told)
        }
        Stage::Passing => give_up(seat.course, None),
        Stage::Answering(answer) if answer.has_begun => None,
        Stage::Answering(_) => {
            let again = if is_lost { decided } else { None };
            give_up(seat.course, again)
        }
    }
}

/// The row of its key is read: it waits, and the head of a response came, or its reply has not begun, and has lost its row.
fn is_read(stage: Stage, is_told: bool, is_lost: bool) -> bool
    ensures { result ≡ is_read_in stage is_told is_lost }
{
    match stage {
        Stage::Undecided | Stage::Passing => false,
        Stage::Waiting => is_told,
        Stage::Answering(answer) => !answer.has_begun && is_lost,
    }
}

/// Its attempts ended, or its ask as a follower is too long.
fn give_up(course: Course, other: Option<Decision>) -> Option<Decision>
    ensures { result ≡ give_up_in course other }
{
    match course {
        Course::Trying(_) => other,
        Course::OutOfTries => Some(Decision::Refuse(502)),
        Course::AskTooLong => Some(Decision::Refuse(431)),
    }
}

/// An instance is followed.
fn follows(decision: Decision) -> bool
    ensures { result ≡ follows decision }
{
    matches!(decision, Decision::Hit(_, _) | Decision::Part(_, _))
}
