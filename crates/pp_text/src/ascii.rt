// Texts that are equal but for ASCII case (RFC 2616, section 2.1).
ghost use Rattle.std.specs.Prelude.{◌≡◌};
ghost use Rattle.pp_text.specs.Bytes.{is_same};

/// Whether the texts are equal but for ASCII case, as field names and most tokens are compared.
pub fn same(a: &[u8], b: &[u8]) -> bool
    ensures { result ≡ is_same a.now b.now }
{
    a.eq_ignore_ascii_case(b)
}
