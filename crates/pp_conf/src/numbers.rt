// Decimal numbers of settings.
ghost use Rattle.std.specs.Prelude.{◌≡◌};
ghost use Rattle.pp_conf.specs.Numbers.{is_padded, number_in};

use pp_text::read_u64;

/// The number that the text is, if it is in this range.
pub(crate) fn number_between(low: u64, high: u64, text: &[u8]) -> Option<u64>
    ensures { result ≡ number_in low high text.now }
{
    if is_padded(text) {
        return None;
    }
    match read_u64(text) {
        Some(n) => { if low <= n && n <= high { Some(n) } else { None } }
        None => None,
    }
}

/// Whether the text begins with a zero that a number does not have.
fn is_padded(text: &[u8]) -> bool
    ensures { result ≡ is_padded text.now }
{
    1 < text.len() && text[0] == b'0'
}
