// Dates as seconds since 1970 (RFC 2616, section 3.3.1).
ghost use Rattle.std.specs.Prelude.{◌≡◌};
ghost use Rattle.httpdate.specs.Date.{parse_secs};
ghost use Rattle.pp_fresh.specs.Dates.{date_of};

use httpdate::HttpDate;
use pp_text::Fields;

/// The second that the first field of this name shows: None where there is no such field or its
/// value is no date in any of the three forms of section 3.3.1.
pub fn date_of(name: &[u8], fields: &Fields) -> Option<u64>
    ensures { result ≡ date_of name.now fields.now }
{
    seconds(fields.first(name)?)
}

/// The second that the text shows.
pub(crate) fn seconds(text: &[u8]) -> Option<u64>
    ensures { result ≡ parse_secs text.now }
{
    match HttpDate::parse_ascii(text) {
        Ok(date) => Some(date.unix_secs()),
        Err(_) => None,
    }
}
