// How old a response is (RFC 2616, section 13.2.3).
ghost use Rattle.std.specs.Prelude.{◌≡◌, option_copied};
ghost use Rattle.pp_fresh.specs.Age.{age_of, first_age, seconds_in, times_of};

use crate::dates::date_of;
use pp_text::{Fields, read_u64};

/// The greatest age that is taken from a field (RFC 9111, section 1.2.2).
const GREATEST_AGE: u64 = 1 << 31;

/// When a response was asked for and when it came, in seconds since 1970, and how old it was then.
#[derive(Clone, Copy, Debug, PartialEq, Eq)]
pub struct Times {
    /// When the request was sent.
    pub request: u64,
    /// When the head of the response came.
    pub response: u64,
    /// The response's age in seconds when it came: `corrected_initial_age`.
    pub initial: u64,
    /// Whether its lifetime may be guessed, where it names none.
    pub may_guess: bool,
}

/// The times of a response with these fields, asked for and come at these seconds, by a request
/// that allows a guess or not. An age that would pass `u64::MAX` stays there; with `Pragma:
/// no-cache` nothing is guessed.
pub fn times_of(fields: &Fields, request: u64, response: u64, allows_guess: bool) -> Times
    ensures { result ≡ times_of fields.now request response allows_guess }
{
    let date = date_of(b"date", fields).unwrap_or(response);
    let apparent = response.saturating_sub(date);
    let received = apparent.max(first_age(fields));
    Times {
        request,
        response,
        initial: received.saturating_add(response.saturating_sub(request)),
        may_guess: allows_guess && !fields.has_item(b"pragma", b"no-cache"),
    }
}

/// The response's age in seconds at this second: `current_age`. One that would pass `u64::MAX`
/// stays there, and a clock that runs backwards adds nothing.
pub fn age(times: &Times, now: u64) -> u64
    ensures { result ≡ age_of times.now now }
{
    times
        .initial
        .saturating_add(now.saturating_sub(times.response))
}

/// The seconds that the first member of the Age fields shows; 0 without such a field.
fn first_age(fields: &Fields) -> u64
    ensures { result ≡ first_age fields.now }
{
    if !fields.has(b"age") {
        return 0;
    }
    seconds_in(fields.items(b"age").next())
}

fn seconds_in(member: Option<&[u8]>) -> u64
    ensures { result ≡ seconds_in (option_copied member.entry) }
{
    match member {
        Some(text) => read_u64(text).unwrap_or(GREATEST_AGE).min(GREATEST_AGE),
        None => GREATEST_AGE,
    }
}
