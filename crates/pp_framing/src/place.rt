// Where in a body a decoder is. Framing is read byte by byte, and data in runs.
ghost use Rattle.std.specs.Prelude.{◌≡◌, ◌+◌, ◌<◌, ◌≤◌, ◌^◌, true, IfSome};
ghost use Rattle.pp_framing.specs.Places.{step, first_place, state_of, ending_of, is_framing as frames, hex_digit as digit_of, data_of as place_of_data, feed_of as place_of_feed, chunk_line as place_in_line, first_digit as place_of_digit, next_digit as place_of_next, extension as place_of_extension, trailer_byte as place_of_trailer_byte, trailer as place_of_trailer};
ghost use Rattle.pp_framing.specs.Sound.{IsSound};

use crate::body::{BodyRule, BodyState, Ending};

/// The most hexadecimal digits of a chunk's size.
pub const SIZE_DIGITS: u8 = 16;
/// The most bytes of a chunk's extension, behind its `;`.
pub const EXTENSION_LEN: u16 = 4_096;
/// The most bytes of all trailer lines, with their line ends.
pub const TRAILER_LEN: u16 = 16_384;

/// What has to come next.
///
/// ```text
/// ChunkStart -> Size -> Blanks, Extension, SizeReturn -> Chunk -> ChunkEnd, ChunkReturn -> ChunkStart
///                    behind the chunk of size 0: -> TrailerStart -> Trailer, TrailerReturn -> TrailerStart
///                                                                -> LastReturn, Over
/// Counted, Unbounded -> Over
/// ```
#[derive(Clone, Copy, Debug, PartialEq, Eq)]
pub enum Place {
    /// A chunk's line.
    ChunkStart,
    /// What is left of a chunk's line, so many digits of its size being in.
    Size { digits: u8, size: u64 },
    /// What is left of a chunk's line behind a blank.
    Blanks { size: u64 },
    /// What is left of a chunk's line behind its `;` and so many bytes.
    Extension { len: u16, size: u64 },
    /// The LF of a chunk's line.
    SizeReturn { size: u64 },
    /// So many bytes of a chunk, at least one.
    Chunk { left: u64 },
    /// The line end behind a chunk's data.
    ChunkEnd,
    /// The LF of that line end.
    ChunkReturn,
    /// A trailer line or the empty line, behind so many bytes of trailer lines.
    TrailerStart { len: u16 },
    /// What is left of a trailer line.
    Trailer { len: u16 },
    /// The LF of a trailer line.
    TrailerReturn { len: u16 },
    /// The LF of the empty line.
    LastReturn,
    /// So many bytes of a body of known length, at least one.
    Counted { left: u64 },
    /// Any bytes, up to the end of the connection.
    Unbounded,
    /// Nothing: the body is whole.
    Over,
    /// Nothing: no body begins so.
    Wrong,
}

impl Place {
    /// The place at the front of a body.
    pub fn first(rule: BodyRule) -> Place
        ensures place { result ≡ first_place rule }
        ensures sound { IsSound result }
    {
        match rule {
            BodyRule::Empty | BodyRule::Length(0) => Place::Over,
            BodyRule::Length(left) => Place::Counted { left },
            BodyRule::Chunked => Place::ChunkStart,
            BodyRule::ToEnd => Place::Unbounded,
        }
    }

    pub fn state(self) -> BodyState
        ensures { result ≡ state_of self }
    {
        match self {
            Place::Over => BodyState::Done,
            Place::Wrong => BodyState::Bad,
            _ => BodyState::Going,
        }
    }

    pub fn ending(self) -> Ending
        ensures { result ≡ ending_of self }
    {
        match self {
            Place::Over | Place::Unbounded => Ending::Whole,
            _ => Ending::Short,
        }
    }

    /// The next byte is one of framing, and not of data.
    pub fn is_framing(self) -> bool
        ensures { result ≡ frames self }
    {
        match self {
            Place::Chunk { .. } | Place::Counted { .. } | Place::Unbounded => false,
            Place::Over | Place::Wrong => false,
            _ => true,
        }
    }

    /// The place behind a byte of framing.
    pub fn next(self, byte: u8) -> Place
        requires sound { IsSound self }
        requires framing { frames self ≡ true }
        ensures place { result ≡ step self byte }
        ensures sound { IsSound result }
    {
        match self {
            Place::ChunkStart => first_digit(byte),
            Place::Size { digits, size } => next_digit(digits, size, byte),
            Place::Blanks { size } => chunk_line(size, byte),
            Place::Extension { len, size } => extension(len, size, byte),
            Place::SizeReturn { size } => feed_of(byte, data_of(size)),
            Place::ChunkEnd => match byte {
                b'\n' => Place::ChunkStart,
                b'\r' => Place::ChunkReturn,
                _ => Place::Wrong,
            },
            Place::ChunkReturn => feed_of(byte, Place::ChunkStart),
            Place::TrailerStart { len } => match byte {
                b'\n' => Place::Over,
                b'\r' => Place::LastReturn,
                _ => trailer_byte(len, Place::Trailer { len: len + 1 }),
            },
            Place::Trailer { len } => trailer(len, byte),
            Place::TrailerReturn { len } => feed_of(byte, Place::TrailerStart { len: len + 1 }),
            Place::LastReturn => feed_of(byte, Place::Over),
            Place::Chunk { .. } | Place::Counted { .. } => unreachable!(),
            Place::Unbounded | Place::Over | Place::Wrong => unreachable!(),
        }
    }
}

/// The value of a hexadecimal digit.
fn hex_value(byte: u8) -> Option<u8>
    ensures value { result ≡ digit_of byte }
    ensures small { IfSome result (λ digit. digit < 16) }
{
    match byte {
        b'0'..=b'9' => Some(byte - b'0'),
        b'A'..=b'F' => Some(byte - b'A' + 10),
        b'a'..=b'f' => Some(byte - b'a' + 10),
        _ => None,
    }
}

/// The place behind a chunk's line.
fn data_of(size: u64) -> Place
    ensures place { result ≡ place_of_data size }
    ensures sound { IsSound result }
{
    if size == 0 {
        Place::TrailerStart { len: 0 }
    } else {
        Place::Chunk { left: size }
    }
}

/// The place behind a byte that has to be LF.
fn feed_of(byte: u8, next: Place) -> Place
    requires { IsSound next }
    ensures place { result ≡ place_of_feed byte next }
    ensures sound { IsSound result }
{
    if byte == b'\n' { next } else { Place::Wrong }
}

fn chunk_line(size: u64, byte: u8) -> Place
    ensures place { result ≡ place_in_line size byte }
    ensures sound { IsSound result }
{
    match byte {
        b'\n' => data_of(size),
        b'\r' => Place::SizeReturn { size },
        b';' => Place::Extension { len: 0, size },
        b' ' | b'\t' => Place::Blanks { size },
        _ => Place::Wrong,
    }
}

fn first_digit(byte: u8) -> Place
    ensures place { result ≡ place_of_digit byte }
    ensures sound { IsSound result }
{
    match hex_value(byte) {
        Some(digit) => Place::Size {
            digits: 1,
            size: u64::from(digit),
        },
        None => Place::Wrong,
    }
}

fn next_digit(digits: u8, size: u64, byte: u8) -> Place
    requires { (digits ≤ 16) × (size < 16 ^ digits) }
    ensures place { result ≡ place_of_next digits size byte }
    ensures sound { IsSound result }
{
    match hex_value(byte) {
        Some(digit) if digits < SIZE_DIGITS => Place::Size {
            digits: digits + 1,
            size: size * 16 + u64::from(digit),
        },
        Some(_) => Place::Wrong,
        None => chunk_line(size, byte),
    }
}

fn extension(len: u16, size: u64, byte: u8) -> Place
    ensures place { result ≡ place_of_extension len size byte }
    ensures sound { IsSound result }
{
    match byte {
        b'\n' => data_of(size),
        b'\r' => Place::SizeReturn { size },
        _ if len < EXTENSION_LEN => Place::Extension { len: len + 1, size },
        _ => Place::Wrong,
    }
}

/// The place behind a byte of a trailer line: its LF has to fit the limit too.
fn trailer_byte(len: u16, next: Place) -> Place
    requires room { len ≤ 16384 }
    requires next { len + 2 ≤ 16384 → IsSound next }
    ensures place { result ≡ place_of_trailer_byte len next }
    ensures sound { IsSound result }
{
    if len + 2 <= TRAILER_LEN {
        next
    } else {
        Place::Wrong
    }
}

fn trailer(len: u16, byte: u8) -> Place
    requires { len < 16384 }
    ensures place { result ≡ place_of_trailer len byte }
    ensures sound { IsSound result }
{
    match byte {
        b'\n' => Place::TrailerStart { len: len + 1 },
        b'\r' => trailer_byte(len, Place::TrailerReturn { len: len + 1 }),
        _ => trailer_byte(len, Place::Trailer { len: len + 1 }),
    }
}
