// The chunked coding, as the proxy spells it (RFC 2616, section 3.6.1): no chunk but the last is empty, sizes are in lower case
// without leading zeros, and there are no extensions and no trailers.

/// A place in a text of that coding.
///
/// ```text
/// Size -> SizeFeed -> Data -> DataReturn -> DataFeed -> Size
///         SizeFeed -> LastReturn -> LastFeed -> End            [the size is 0]
/// ```
#[derive(Clone, Copy, Debug, PartialEq, Eq)]
pub(crate) enum Place {
    /// So many digits of a size came, with this value.
    Size(usize, usize),
    /// The line feed behind this size is to come.
    SizeFeed(usize),
    /// So many bytes of a chunk are to come.
    Data(usize),
    DataReturn,
    DataFeed,
    LastReturn,
    LastFeed,
    End,
}

impl Place {
    pub(crate) const BEGIN: Place = Place::Size(0, 0);

    /// The place behind this byte, where so many bytes of data are left. None where it is none of the coding.
    pub(crate) fn next(self, byte: u8, left: usize) -> Option<Place> {
        match (self, byte) {
            (Place::Size(1.., value), b'\r') => Some(Place::SizeFeed(value)),
            (Place::Size(digits, value), _) => in_size(digits, value, byte),
            (Place::SizeFeed(0), b'\n') => Some(Place::LastReturn),
            (Place::SizeFeed(size), b'\n') if size <= left => Some(Place::Data(size)),
            (Place::Data(0..=1), _) => Some(Place::DataReturn),
            (Place::Data(size), _) => Some(Place::Data(size.saturating_sub(1))),
            (Place::DataReturn, b'\r') => Some(Place::DataFeed),
            (Place::DataFeed, b'\n') => Some(Place::BEGIN),
            (Place::LastReturn, b'\r') => Some(Place::LastFeed),
            (Place::LastFeed, b'\n') => Some(Place::End),
            (_, _) => None,
        }
    }
}

/// Behind one more digit of a size.
fn in_size(digits: usize, value: usize, byte: u8) -> Option<Place> {
    let digit = match byte {
        b'0'..=b'9' => byte.saturating_sub(b'0'),
        b'a'..=b'f' => byte.saturating_sub(b'a').saturating_add(10),
        _ => return None,
    };
    if digits > 0 && value == 0 {
        return None;
    }
    let value = value.checked_mul(16)?.checked_add(usize::from(digit))?;
    Some(Place::Size(digits.saturating_add(1), value))
}
