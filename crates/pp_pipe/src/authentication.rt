// Requests whose authentication is that of their connection.
ghost use Rattle.std.specs.Prelude.{◌≡◌, position};
ghost use Rattle.pp_text.specs.Bytes.{is_blank};
ghost use Rattle.pp_pipe.specs.Authentication.{binds_connection as binds, is_of_connection as of_connection, scheme_of};

use pp_text::{Fields, same};

/// Whether a request with these fields authenticates its connection, and not itself alone (RFC 4559,
/// section 6): NTLM or Negotiate. Nobody else is to be asked on that connection, before it or behind.
pub fn binds_connection(fields: &Fields<'_, '_>) -> bool
    ensures { result ≡ binds fields.now }
{
    fields
        .values(b"authorization")
        .any(|credentials| is_of_connection(credentials))
}

fn is_of_connection(credentials: &[u8]) -> bool
    ensures { result ≡ of_connection credentials.now }
{
    let scheme = scheme(credentials);
    same(scheme, b"ntlm") || same(scheme, b"negotiate")
}

fn scheme(credentials: &[u8]) -> &[u8]
    ensures { result.now ≡ scheme_of credentials.now }
{
    match first_blank(credentials) {
        Some(at) => &credentials[..at],
        None => credentials,
    }
}

fn first_blank(text: &[u8]) -> Option<usize>
    ensures { result ≡ position is_blank text.now }
{
    text.iter().position(|b| *b == b' ' || *b == b'\t')
}
