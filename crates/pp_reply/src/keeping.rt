// Whether a client's connection goes on behind a reply, and what a request expects before it.
ghost use Rattle.std.specs.Prelude.{◌≡◌};
ghost use Rattle.pp_reply.specs.Keeping.{is_kept_open as keeps_open, is_end_known as knows_end, wants_interim as waits, has_body as carries};

use pp_framing::BodyRule;
use pp_text::Fields;

/// The interim answer (RFC 2616, section 10.1.1).
pub const CONTINUE: &[u8] = b"HTTP/1.1 100 Continue\r\n\r\n";

/// Whether the client of a request with this minor version and these fields wants its connection to
/// go on: of HTTP/1.1 where Connection has no `close`, of HTTP/1.0 where Connection or
/// Proxy-Connection has `keep-alive` (sections 8.1.2 and 19.6.2).
pub fn is_kept_open(minor: u8, fields: &Fields<'_, '_>) -> bool
    ensures { result ≡ keeps_open minor fields.now }
{
    if minor == 0 {
        fields.has_item(b"connection", b"keep-alive")
            || fields.has_item(b"proxy-connection", b"keep-alive")
    } else {
        !fields.has_item(b"connection", b"close")
    }
}

/// Whether a client of this minor version knows where a passed reply ends, of whose response the
/// body is delimited so: a body of unknown length goes to HTTP/1.0 up to the connection's end.
pub fn is_end_known(rule: BodyRule, minor: u8) -> bool
    ensures { result ≡ knows_end rule minor }
{
    match rule {
        BodyRule::Empty | BodyRule::Length(_) => true,
        BodyRule::Chunked | BodyRule::ToEnd => minor != 0,
    }
}

/// Whether a request waits for the interim answer before it sends its body (section 8.2.3).
pub fn wants_interim(minor: u8, rule: BodyRule, fields: &Fields<'_, '_>) -> bool
    ensures { result ≡ waits minor rule fields.now }
{
    minor != 0 && (has_body(rule) && fields.has_item(b"expect", b"100-continue"))
}

fn has_body(rule: BodyRule) -> bool
    ensures { result ≡ carries rule }
{
    match rule {
        BodyRule::Empty => false,
        BodyRule::Length(n) => n > 0,
        BodyRule::Chunked | BodyRule::ToEnd => true,
    }
}
