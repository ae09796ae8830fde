// How long a response is fresh (RFC 2616, section 13.2.4).
ghost use Rattle.std.specs.Prelude.{◌≡◌};
ghost use Rattle.pp_fresh.specs.Lifetime.{lifetime_by_dates, lifetime_guessed, lifetime_of};

use crate::aging::Times;
use crate::dates::{date_of, seconds};
use crate::directives::Directives;
use pp_text::Fields;

/// The longest lifetime in seconds that is guessed: two weeks.
const LONGEST_GUESS: u64 = 1_209_600;

/// The seconds for which a response with these fields is fresh: what `s-maxage` says, else what
/// `max-age` says, else the time from Date to Expires, else a tenth of that from Last-Modified to
/// Date, at most two weeks, where that may be guessed, else 0. Without a readable Date the response
/// is dated when it came; an Expires that is no date is in the past.
pub fn lifetime(fields: &Fields, times: &Times) -> u64
    ensures { result ≡ lifetime_of fields.now times.now }
{
    let directives = Directives::read(fields);
    if let Some(seconds) = directives.s_maxage {
        return seconds;
    }
    if let Some(seconds) = directives.max_age {
        return seconds;
    }
    lifetime_by_dates(fields, times)
}

fn lifetime_by_dates(fields: &Fields, times: &Times) -> u64
    ensures { result ≡ lifetime_by_dates fields.now times.now }
{
    let date = date_of(b"date", fields).unwrap_or(times.response);
    match fields.first(b"expires") {
        Some(expires) => seconds(expires).unwrap_or(0).saturating_sub(date),
        None if times.may_guess => lifetime_guessed(date_of(b"last-modified", fields), date),
        None => 0,
    }
}

fn lifetime_guessed(modified: Option<u64>, date: u64) -> u64
    ensures { result ≡ lifetime_guessed modified date }
{
    match modified {
        Some(modified) => (date.saturating_sub(modified) / 10).min(LONGEST_GUESS),
        None => 0,
    }
}
