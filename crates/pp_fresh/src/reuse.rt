// Whether a response may be kept, and whether it may be used for a request without asking its
// origin (RFC 2616, sections 13.1.3, 13.4, 14.9 and 14.32).
ghost use Rattle.std.specs.Prelude.{◌≡◌};
ghost use Rattle.pp_fresh.specs.Ready.{asks_validation, is_for_some, is_older_than_wanted, is_ready, is_staler_than_wanted, may_store};

use crate::aging::{Times, age};
use crate::directives::Directives;
use crate::freshness::lifetime;
use pp_text::Fields;

/// Whether a response with these fields may be kept for others: false exactly with `no-store` or
/// `private`, with field names or without, with Vary, Set-Cookie or Set-Cookie2.
pub fn may_store(fields: &Fields) -> bool
    ensures { result ≡ may_store fields.now }
{
    let directives = Directives::read(fields);
    !(directives.no_store || directives.private) && !is_for_some(fields)
}

fn is_for_some(fields: &Fields) -> bool
    ensures { result ≡ is_for_some fields.now }
{
    fields.has(b"vary") || (fields.has(b"set-cookie") || fields.has(b"set-cookie2"))
}

/// Whether a kept response answers the request without a word to its origin: it may be kept, it is
/// fresh, its Cache-Control has no `no-cache`, and the request does not ask for validation by `no-cache`,
/// `Pragma: no-cache`, a `max-age` of 0 or below the response's age, or a `min-fresh` above what is
/// left of its lifetime.
pub fn ready(request: &Fields, kept: &Fields, times: &Times, now: u64) -> bool
    ensures { result ≡ is_ready request.now kept.now times.now now }
{
    let age = age(times, now);
    let lifetime = lifetime(kept, times);
    let is_usable = may_store(kept) && !Directives::read(kept).no_cache;
    is_usable && (age < lifetime && !asks_validation(request, lifetime, age))
}

fn asks_validation(request: &Fields, lifetime: u64, age: u64) -> bool
    ensures { result ≡ asks_validation request.now lifetime age }
{
    let directives = Directives::read(request);
    directives.no_cache
        || request.has_item(b"pragma", b"no-cache")
        || is_older_than_wanted(directives.max_age, age)
        || is_staler_than_wanted(directives.min_fresh, lifetime, age)
}

fn is_older_than_wanted(most: Option<u64>, age: u64) -> bool
    ensures { result ≡ is_older_than_wanted most age }
{
    most.is_some_and(|most| most < age || most == 0)
}

fn is_staler_than_wanted(least: Option<u64>, lifetime: u64, age: u64) -> bool
    ensures { result ≡ is_staler_than_wanted least lifetime age }
{
    match least {
        Some(least) => lifetime < age || lifetime - age < least,
        None => false,
    }
}
