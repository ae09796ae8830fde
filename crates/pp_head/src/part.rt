// Whether some bytes end inside a request target.
ghost use Rattle.std.specs.Prelude.{◌≡◌};
ghost use Rattle.httparse.specs.Grammar.{is_token_byte};
ghost use Rattle.pp_head.specs.Part.{part_after, part_of, is_target};

/// The part of a request line that the next byte belongs to.
///
/// ```text
/// Blank  -> Return, Blank   an empty line, or the first byte of its CRLF
/// Blank  -> Method          a byte of a token
/// Method -> Target          a space
/// any    -> Other           what the part has not, and all after it
/// ```
#[derive(Clone, Copy, PartialEq, Eq)]
pub(crate) enum Part {
    /// The empty lines before the request line.
    Blank,
    /// The line feed of an empty line whose carriage return is there.
    Return,
    Method,
    Target,
    /// What stands behind the target, or is no request.
    Other,
}

/// token = 1*<any CHAR except CTLs or separators> (RFC 2616, section 2.2).
fn is_token(b: u8) -> bool
    ensures { result ≡ is_token_byte b }
{
    b.is_ascii_alphanumeric() || b"!#$%&'*+-.^_`|~".contains(&b)
}

impl Part {
    fn after(self, b: u8) -> Part
        ensures { result ≡ part_after self b }
    {
        match self {
            Part::Blank => {
                if b == b'\n' {
                    Part::Blank
                } else if b == b'\r' {
                    Part::Return
                } else if is_token(b) {
                    Part::Method
                } else {
                    Part::Other
                }
            }
            Part::Return => { if b == b'\n' { Part::Blank } else { Part::Other } }
            Part::Method => {
                if b == b' ' {
                    Part::Target
                } else if is_token(b) {
                    Part::Method
                } else {
                    Part::Other
                }
            }
            Part::Target => {
                if b > b' ' && b != 127 {
                    Part::Target
                } else {
                    Part::Other
                }
            }
            Part::Other => Part::Other,
        }
    }
}

/// Whether the bytes end inside a request target: empty lines, a method, a space, and then nothing
/// but bytes of a target.
pub(crate) fn ends_in_target(bytes: &[u8]) -> bool
    ensures { result ≡ is_target (part_of bytes.now) }
{
    let mut part = Part::Blank;
    for &b in bytes {
        part = part.after(b);
    }
    matches!(part, Part::Target)
}
