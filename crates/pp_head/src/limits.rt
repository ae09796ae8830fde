// How long a head may be.
ghost use Rattle.std.specs.Prelude.{◌≡◌};
ghost use Rattle.pp_head.specs.Limits.{line_ends, is_within_limits, is_limit_reached};

/// The most bytes of a head, the empty lines before it counted.
pub const MAX_BYTES: usize = 16384;

/// The most line ends of a head, the empty lines before it counted.
pub const MAX_LINE_ENDS: usize = 102;

/// The most fields of a head.
pub const MAX_FIELDS: usize = 100;

fn count_line_ends(bytes: &[u8]) -> usize
    ensures { result ≡ line_ends bytes.now }
{
    bytes.iter().filter(|b| **b == b'\n').count()
}

/// Whether a head of this text, with so many fields, is within the limits.
pub(crate) fn fits(text: &[u8], fields: usize) -> bool
    ensures { result ≡ is_within_limits text.now fields }
{
    fields <= MAX_FIELDS && (text.len() <= MAX_BYTES && count_line_ends(text) <= MAX_LINE_ENDS)
}

/// Whether a head that is not whole by now is too long.
pub(crate) fn reaches_limit(bytes: &[u8]) -> bool
    ensures { result ≡ is_limit_reached bytes.now }
{
    bytes.len() >= MAX_BYTES || count_line_ends(bytes) >= MAX_LINE_ENDS
}
