// Where a lifetime may be guessed (RFC 2616, section 13.9).
ghost use Rattle.std.specs.Prelude.{◌≡◌};
ghost use Rattle.pp_fresh.specs.Guessing.{allows_guess, has_query};

use pp_text::Fields;

/// Whether the lifetime of a response to this request may be guessed: false exactly where its key
/// has a query or it has Cookie.
pub fn allows_guess(key: &[u8], request: &Fields) -> bool
    ensures { result ≡ allows_guess key.now request.now }
{
    !(has_query(key) || request.has(b"cookie"))
}

fn has_query(key: &[u8]) -> bool
    ensures { result ≡ has_query key.now }
{
    key.iter().any(|b| *b == b'?')
}
