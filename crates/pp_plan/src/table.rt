// The table of decisions.
ghost use Rattle.std.specs.Prelude.{◌≡◌, option_map};
ghost use Rattle.pp_head.specs.Shown.{shown_request};
ghost use Rattle.pp_plan.specs.Decision.{asks_origin, by_range, decision, is_not_modified, is_only_cached, is_ready_row, is_settled, line};
ghost use Rattle.pp_plan.specs.Row.{shown_row};

use crate::requests::{is_conditional, is_connect, is_get, is_head, never_uses};
use crate::row::PlanRow;
use crate::spans::resolved;
use pp_fresh::{Directives, may_store, ready};
use pp_head::RequestHead;
use pp_ranges::Resolved;
use pp_valid::{matches_none, not_modified_since};
use pp_world::Decision;

/// What the exchange that was begun for this very request brought.
#[derive(Clone, Copy, Debug, PartialEq, Eq)]
pub enum Begun {
    /// There was none, or what it brought does not count any more.
    Nothing,
    /// The row, which it made or refreshed.
    Settled,
    /// Another response, which is relayed.
    Other,
    /// A part without a version, to an ask that began before the client's range.
    Widened,
}

/// The decision for a request whose key has this row, at this second.
///
/// The first line that applies counts:
///
/// | no. | the request | what is known | decision |
/// |---|---|---|---|
/// | 1 | its method is neither GET nor HEAD | | `Pass` |
/// | 2 | has a body, Authorization, `no-store`, If-Match or If-Unmodified-Since | | `Pass` |
/// | 3 | | its exchange brought `Other` | `Relay` |
/// | 4 | | its exchange brought `Widened` | `Pass` |
/// | 5 | is HEAD | no row, or one that is not ready | `Pass` |
/// | 6 | has a suffix range, one with an If-Range that is no strong tag, If-None-Match or If-Modified-Since | no row | `Pass` |
/// | 7 | | no row | `Fetch` |
/// | 8 | | the row is not ready | `Validate` |
/// | 9 | its client has the version already | | `NotModified` |
/// | 10 | is HEAD | | `Head` |
/// | 11 | has a range that counts and asks for no byte of the body | | `Unsatisfiable` |
/// | 12 | has a range that counts | its part is held | `Hit` of the part |
/// | 13 | has a range that counts | | `Part` of the part |
/// | 14 | | the whole body is held | `Hit` of the whole |
/// | 15 | | | `Part` of the whole |
///
/// A row is ready where the exchange of this request made or refreshed it and it may be kept, or
/// `pp_fresh` says so. CONNECT is refused, by 400: its target is a host and a port alone, and so has
/// no key (RFC 9110, section 9.3.6). A GET or HEAD with `only-if-cached` that would ask the origin is refused, by 504 (RFC 2616, section
/// 14.9.4).
pub fn decide(
    request: &RequestHead<'_, '_>,
    row: Option<&PlanRow<'_, '_>>,
    begun: Begun,
    now: u64,
) -> Decision
    ensures { result ≡ decision (shown_request request.now) (option_map (λ r. shown_row r.now) row.entry) begun now }
{
    if is_connect(request.method) {
        return Decision::Refuse(400);
    }
    let first = line(request, row, begun, is_ready_row(request, row, begun, now));
    if is_only_cached(request) && asks_origin(first) {
        return Decision::Refuse(504);
    }
    first
}

/// The first line of the table that applies, by the numbers of the table above.
fn line(
    request: &RequestHead<'_, '_>,
    row: Option<&PlanRow<'_, '_>>,
    begun: Begun,
    is_ready: bool,
) -> Decision
    ensures { result ≡ line (shown_request request.now) (option_map (λ r. shown_row r.now) row.entry) begun is_ready }
{
    let is_head = is_head(request.method);
    match (begun, row) {
        _ if !(is_get(request.method) || is_head) => Decision::Pass, // 1
        _ if never_uses(&request.fields) => Decision::Pass, // 2
        (Begun::Other, _) => Decision::Relay, // 3
        (Begun::Widened, _) => Decision::Pass, // 4
        _ if is_head && !is_ready => Decision::Pass, // 5
        (_, None) if is_conditional(&request.fields) => Decision::Pass, // 6
        (_, None) => Decision::Fetch, // 7
        (_, Some(_)) if !is_ready => Decision::Validate, // 8
        (_, Some(row)) if is_not_modified(request, row) => Decision::NotModified, // 9
        (_, Some(_)) if is_head => Decision::Head, // 10
        (_, Some(row)) => {
            let range = resolved(&request.fields, row.version);
            by_range(row.held, row.version.length, range)
        }
    }
}

fn by_range(held: bool, length: u64, range: Resolved) -> Decision
    ensures { result ≡ by_range held length range }
{
    match (held, range) {
        (_, Resolved::Unsatisfiable) => Decision::Unsatisfiable, // 11
        (true, Resolved::Part(from, to)) => Decision::Hit(from, to), // 12
        (false, Resolved::Part(from, to)) => Decision::Part(from, to), // 13
        (true, Resolved::Whole) => Decision::Hit(0, length), // 14
        (false, Resolved::Whole) => Decision::Part(0, length), // 15
    }
}

/// Whether the row may answer without a word from the origin.
fn is_ready_row(
    request: &RequestHead<'_, '_>,
    row: Option<&PlanRow<'_, '_>>,
    begun: Begun,
    now: u64,
) -> bool
    ensures { result ≡ is_ready_row (shown_request request.now) (option_map (λ r. shown_row r.now) row.entry) begun now }
{
    match row {
        None => false,
        Some(row) => {
            let is_settled = is_settled(begun) && may_store(&row.fields);
            is_settled || ready(&request.fields, &row.fields, &row.times, now)
        }
    }
}

/// Whether the client has the version already (RFC 7232, section 6).
fn is_not_modified(request: &RequestHead<'_, '_>, row: &PlanRow<'_, '_>) -> bool
    ensures { result ≡ is_not_modified (shown_request request.now) (shown_row row.now) }
{
    match matches_none(&request.fields, &row.version.tag) {
        Some(matches) => matches,
        None => not_modified_since(&request.fields, &row.fields),
    }
}

fn is_settled(begun: Begun) -> bool
    ensures { result ≡ is_settled begun }
{
    match begun {
        Begun::Settled => true,
        Begun::Nothing | Begun::Other | Begun::Widened => false,
    }
}

/// Whether the client wants no word to the origin.
fn is_only_cached(request: &RequestHead<'_, '_>) -> bool
    ensures { result ≡ is_only_cached (shown_request request.now) }
{
    let reads = is_get(request.method) || is_head(request.method);
    reads && Directives::read(&request.fields).only_if_cached
}

fn asks_origin(decision: Decision) -> bool
    ensures { result ≡ asks_origin decision }
{
    match decision {
        Decision::Pass | Decision::Fetch | Decision::Validate | Decision::Part(_, _) => true,
        Decision::Refuse(_)
        | Decision::Hit(_, _)
        | Decision::Head
        | Decision::NotModified
        | Decision::Unsatisfiable
        | Decision::Relay => false,
    }
}
