// Fields that are of the message, and not of its connection (RFC 2616, section 14.10).
ghost use Rattle.std.specs.Prelude.{◌≡◌, option_copied};
ghost use Rattle.pp_text.specs.Parts.{sole};
ghost use Rattle.pp_valid.specs.EndToEnd.{end_to_end_values, hides_freshness, is_dropped};

use pp_text::{Fields, sole_value};

/// Whether Connection names the field.
pub fn is_dropped(fields: &Fields<'_, '_>, name: &[u8]) -> bool
    ensures { result ≡ is_dropped name.now fields.now }
{
    fields.has_item(b"connection", name)
}

/// The value of the one field of this name that Connection does not name.
pub fn sole_end_to_end<'a>(fields: &Fields<'a, '_>, name: &[u8]) -> Option<&'a [u8]>
    ensures { option_copied result ≡ sole (end_to_end_values name.now fields.now) }
{
    if is_dropped(fields, name) {
        return None;
    }
    sole_value(fields, name)
}

/// Whether Connection names a field that says how long the response may be used, or since when.
pub fn hides_freshness(fields: &Fields<'_, '_>) -> bool
    ensures { result ≡ hides_freshness fields.now }
{
    is_dropped(fields, b"cache-control")
        || (is_dropped(fields, b"expires")
            || (is_dropped(fields, b"date")
                || (is_dropped(fields, b"age") || is_dropped(fields, b"last-modified"))))
}
