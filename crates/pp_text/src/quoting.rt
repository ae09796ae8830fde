// Where a byte of a text stands as quoted strings open and close (RFC 2616, section 2.2).
ghost use Rattle.std.specs.Prelude.{◌≡◌};
ghost use Rattle.pp_text.specs.Quoting.{is_outside, quoting_after};

/// Where a byte stands to the quoted strings of its text.
///
/// ```text
/// Outside -> Inside    a quotation mark opens a string
/// Inside  -> Outside   a quotation mark closes it
/// Inside  -> Escaped   a backslash quotes the next byte
/// Escaped -> Inside    any byte
/// ```
#[derive(Clone, Copy, Debug)]
pub enum Quoting {
    Outside,
    Inside,
    Escaped,
}

impl Quoting {
    /// Where the byte after this one stands.
    pub fn after(self, byte: u8) -> Quoting
        ensures { result ≡ quoting_after self byte }
    {
        match (self, byte) {
            (Quoting::Outside, b'"') => Quoting::Inside,
            (Quoting::Outside, _) => Quoting::Outside,
            (Quoting::Inside, b'"') => Quoting::Outside,
            (Quoting::Inside, b'\\') => Quoting::Escaped,
            (Quoting::Inside, _) => Quoting::Inside,
            (Quoting::Escaped, _) => Quoting::Inside,
        }
    }

    pub fn is_outside(self) -> bool
        ensures { result ≡ is_outside self }
    {
        matches!(self, Quoting::Outside)
    }
}
