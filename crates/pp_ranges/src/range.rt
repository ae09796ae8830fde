// A byte range, and the bytes of a body that it stands for.
ghost use Rattle.std.specs.Prelude.{◌≡◌};
ghost use Rattle.pp_ranges.specs.Ranges.{IsInOrder, IsPartOf, resolve};

/// The bytes that a request asks for (RFC 7233, section 2.1), each counted from 0.
#[derive(Clone, Copy, Debug, PartialEq, Eq)]
pub enum Range {
    /// From the first to the last byte, both inclusive.
    Span(u64, u64),
    /// From this byte to the end.
    From(u64),
    /// This many bytes at the end.
    Last(u64),
}

/// What a range stands for in a body of known length.
#[derive(Clone, Copy, Debug, PartialEq, Eq)]
pub enum Resolved {
    /// The whole body, which is empty.
    Whole,
    /// A half-open span of offsets, which is not empty.
    Part(u64, u64),
    /// No byte of the body: 416 (section 4.4).
    Unsatisfiable,
}

/// The part of a body of `n` bytes that the range stands for.
pub fn resolve(range: &Range, n: u64) -> Resolved
    requires { IsInOrder range.now }
    ensures answer { result ≡ resolve range.now n }
    ensures within { IsPartOf n result }
{
    match *range {
        Range::Span(first, last) if first < n => Resolved::Part(first, last.min(n - 1) + 1),
        Range::From(first) if first < n => Resolved::Part(first, n),
        Range::Span(..) | Range::From(_) | Range::Last(0) => Resolved::Unsatisfiable,
        Range::Last(_) if n == 0 => Resolved::Whole,
        Range::Last(length) => Resolved::Part(n - length.min(n), n),
    }
}
