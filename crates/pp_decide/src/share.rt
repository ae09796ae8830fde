// One fetch for many (ours): a request waits once for what another has asked for already.
ghost use Rattle.std.specs.Prelude.{◌≡◌};
ghost use Rattle.pp_decide.specs.Sharing.{due_undecided, is_sharing, asks_part, earlier, has_shared_ask, is_asked, is_awaited, is_shared, may_wait_on, shared_ask};
ghost use Rattle.pp_seats.specs.Dues.{may_share, undecided_in};
ghost use Rattle.pp_decide.specs.Patience.{is_patient};

use crate::decided::decide;
use pp_flow::{Aim, Entry, Kind};
use pp_seats::{Seat, Shared, Stage};
use pp_state::State;
use pp_world::Decision;

/// Ours: a request waits for another's fetch for so many seconds.
const PATIENCE: u64 = 5;

/// Of the exchanges that ask for the whole of the client's key, or check it, and whose answer has not come, the one that
/// began first.
pub fn shared_ask(state: &State, seat: &Seat) -> Option<u64>
    ensures { result ≡ shared_ask seat.now state.entry.now.flow }
{
    let key = seat.front.key()?;
    let mut first: Option<u64> = None;
    for index in 0..state.flow.len() {
        if let Some(entry) = state.flow.at(index) {
            if is_shared(entry, key.text()) {
                first = Some(earlier(first, entry.exchange.number));
            }
        }
    }
    first
}

/// The exchange that it waited for is there, and its answer has not come.
fn is_awaited(state: &State, number: u64) -> bool
    ensures { result ≡ is_awaited number state.entry.now.flow }
{
    match state.flow.get(number) {
        None => false,
        Some(e) => !e.headed,
    }
}

/// It waits for another's answer, and may wait on.
fn may_wait_on(state: &State, seat: &Seat) -> bool
    ensures { result ≡ may_wait_on seat.now.waits_on state.entry.now.now state.entry.now.flow }
{
    match &seat.waits_on {
        None => false,
        Some(shared) => is_patient(is_awaited(state, shared.exchange), state.now, shared.since),
    }
}

/// What it asks is asked already, where that counts: fetches are shared, and it may be another's.
fn is_asked(state: &State, seat: &Seat, decided: Option<Decision>) -> bool
    ensures { result ≡ is_asked state.entry.now.shares_fetches decided seat.now state.entry.now.flow }
{
    match decided {
        None => false,
        Some(decision) => state.shares_fetches
            && may_share(decision)
            && shared_ask(state, seat).is_some(),
    }
}

/// A request waits once for what is asked already.
pub fn due_undecided(state: &State, seat: &Seat) -> Option<Decision>
    ensures { result ≡ due_undecided state.entry.now seat.now }
{
    let is_patient = may_wait_on(state, seat);
    let decided = if is_patient {
        None
    } else {
        decide(state, seat)
    };
    let is_asked = seat.waits_on.is_none() && is_asked(state, seat, decided);
    undecided_by(
        seat.waits_on,
        is_patient,
        state.shares_fetches,
        is_asked,
        decided,
    )
}

/// It waits on; or what it names is asked already.
fn has_shared_ask(state: &State, seat: &Seat) -> bool
    ensures { result ≡ has_shared_ask seat.now.waits_on seat.now state.entry.now.now state.entry.now.flow }
{
    match &seat.waits_on {
        None => shared_ask(state, seat).is_some(),
        Some(_) => may_wait_on(state, seat),
    }
}

/// Where nothing is due, it waits for the answer to another client's ask.
pub fn is_sharing(state: &State, seat: &Seat) -> bool
    ensures { result ≡ is_sharing state.entry.now seat.now }
{
    matches!(seat.stage, Stage::Undecided) && seat.front.is_there() && has_shared_ask(state, seat)
}

/// It asks for the whole of this key, or checks it, and its answer has not come.
fn is_shared(entry: &Entry, key: &[u8]) -> bool
    ensures { result ≡ is_shared key.now entry.now }
{
    let e = &entry.exchange;
    matches!(e.aim, Aim::Own)
        && !e.headed
        && !asks_part(&entry.errand.kind)
        && entry.key.as_slice() == key
}

fn asks_part(kind: &Kind) -> bool
    ensures { result ≡ asks_part kind.now }
{
    matches!(kind, Kind::Range(_, _) | Kind::Hole(_, _, _))
}

fn earlier(first: Option<u64>, number: u64) -> u64
    ensures { result ≡ earlier first number }
{
    match first {
        None => number,
        Some(first) => first.min(number),
    }
}

/// The answer is awaited, and the request began to wait for it less than five seconds ago.
fn is_patient(is_awaited: bool, now: u64, since: u64) -> bool
    ensures { result ≡ is_patient is_awaited now since }
{
    is_awaited && now.saturating_sub(since) < PATIENCE
}

/// By whether it is patient still, whether fetches are shared, and whether what it asks is asked already.
fn undecided_by(
    waits_on: Option<Shared>,
    is_patient: bool,
    shares: bool,
    is_asked: bool,
    decided: Option<Decision>,
) -> Option<Decision>
    ensures { result ≡ undecided_in waits_on is_patient shares is_asked decided }
{
    match waits_on {
        Some(_) => if is_patient { None } else { decided }
        None => match decided {
            None => None,
            Some(decision) => {
                let is_shared = shares && may_share(decision);
                if is_shared && is_asked {
                    None
                } else {
                    Some(decision)
                }
            }
        },
    }
}

/// What it asks may be what another has asked for already.
pub fn may_share(decision: Decision) -> bool
    ensures { result ≡ may_share decision }
{
    matches!(decision, Decision::Fetch | Decision::Validate)
}
