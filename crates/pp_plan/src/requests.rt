// What a request says of its decision.
ghost use Rattle.std.specs.Prelude.{◌≡◌, codes};
ghost use Rattle.pp_text.specs.Fields.{first_value};
ghost use Rattle.pp_plan.specs.Requests.{is_conditional, is_connect, is_get, is_head, is_judged_by_origin, is_resumed, is_suffix, length_of, never_uses};

use pp_fresh::Directives;
use pp_ranges::{Range, read_range};
use pp_text::{Fields, read_u64};

/// Whether the method is GET (RFC 2616, section 9.3).
pub fn is_get(method: &[u8]) -> bool
    ensures { result ≡ is_get method.now }
{
    method == b"GET".as_slice()
}

/// Whether the method is HEAD (section 9.4).
pub fn is_head(method: &[u8]) -> bool
    ensures { result ≡ is_head method.now }
{
    method == b"HEAD".as_slice()
}

/// Whether the method is CONNECT (RFC 9110, section 9.3.6).
pub fn is_connect(method: &[u8]) -> bool
    ensures { result ≡ is_connect method.now }
{
    method == b"CONNECT".as_slice()
}

/// Whether the request keeps out of the cache: it has a body or credentials, is not to be stored, or
/// has a condition that only its origin can judge.
pub fn never_uses(fields: &Fields<'_, '_>) -> bool
    ensures { result ≡ never_uses fields.now }
{
    let is_own = length_of(fields) > 0 || fields.has(b"authorization");
    let is_kept_out = is_own || Directives::read(fields).no_store;
    is_kept_out || fields.has(b"if-match") || fields.has(b"if-unmodified-since")
}

/// The length of the request's body.
fn length_of(fields: &Fields<'_, '_>) -> u64
    ensures { result ≡ length_of fields.now }
{
    let Some(text) = fields.first(b"content-length") else {
        return 0;
    };
    read_u64(text).unwrap_or(0)
}

/// Whether the request asks, of what is not known, for less than the whole: for a part that only the
/// length tells, for the rest of what the client has by its date, or for what the client does not have.
pub fn is_conditional(fields: &Fields<'_, '_>) -> bool
    ensures { result ≡ is_conditional fields.now }
{
    let is_part = is_suffix(read_range(fields)) || is_resumed(fields);
    is_part || fields.has(b"if-none-match") || fields.has(b"if-modified-since")
}

/// Whether the range counts where If-Range holds, and only the origin can say whether it does.
fn is_resumed(fields: &Fields<'_, '_>) -> bool
    ensures { result ≡ is_resumed fields.now }
{
    read_range(fields).is_some() && is_judged_by_origin(fields)
}

/// Whether the request has an If-Range that is no strong tag, but a date or a weak one (RFC 9110,
/// section 13.1.5).
fn is_judged_by_origin(fields: &Fields<'_, '_>) -> bool
    ensures { result ≡ is_judged_by_origin (first_value (codes "if-range") fields.now) }
{
    let Some(value) = fields.first(b"if-range") else {
        return false;
    };
    !value.starts_with(b"\"")
}

fn is_suffix(range: Option<Range>) -> bool
    ensures { result ≡ is_suffix range }
{
    match range {
        Some(Range::Last(_)) => true,
        Some(Range::Span(_, _)) | Some(Range::From(_)) | None => false,
    }
}
