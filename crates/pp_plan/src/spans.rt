// Which bytes a reply shows (RFC 7233, sections 2.1 and 3.2).
ghost use Rattle.std.specs.Prelude.{◌≡◌, ◌≤◌, ◌==◌, ◌||◌};
ghost use Rattle.pp_head.specs.Shown.{shown_request};
ghost use Rattle.pp_ranges.specs.Ranges.{IsPartOf};
ghost use Rattle.pp_plan.specs.Spans.{is_unsatisfiable, resolved, span_in};

use pp_head::RequestHead;
use pp_ranges::{Resolved, read_range, resolve};
use pp_text::Fields;
use pp_valid::{Version, if_range_holds};

/// The bytes of a version that a reply to the request shows, as a half-open span: of a range that
/// counts and whose If-Range holds its part, and else the whole body.
pub fn span(request: &RequestHead<'_, '_>, version: &Version) -> (u64, u64)
    ensures value { result ≡ span_in version.now.length (resolved (shown_request request.now).fields version.now) }
    ensures ordered { result.0 ≤ result.1 }
    ensures within { result.1 ≤ version.now.length }
    ensures empty { (result.0 == result.1) ≡ ((version.now.length == 0) || is_unsatisfiable (resolved (shown_request request.now).fields version.now)) }
{
    span_in(version.length, resolved(&request.fields, version))
}

/// What the request asks of this version.
pub fn resolved(fields: &Fields<'_, '_>, version: &Version) -> Resolved
    ensures value { result ≡ resolved fields.now version.now }
    ensures within { IsPartOf version.now.length result }
{
    if !if_range_holds(fields, &version.tag) {
        return Resolved::Whole;
    }
    match read_range(fields) {
        Some(range) => resolve(&range, version.length),
        None => Resolved::Whole,
    }
}

fn span_in(length: u64, resolved: Resolved) -> (u64, u64)
    requires { IsPartOf length resolved }
    ensures value { result ≡ span_in length resolved }
    ensures ordered { result.0 ≤ result.1 }
    ensures within { result.1 ≤ length }
    ensures empty { (result.0 == result.1) ≡ ((length == 0) || is_unsatisfiable resolved) }
{
    match resolved {
        Resolved::Whole => (0, length),
        Resolved::Part(from, to) => (from, to),
        Resolved::Unsatisfiable => (0, 0),
    }
}
