// What is said of a body: the rule that delimits it, and what a decoder answers.

/// How the body of a message is delimited (RFC 2616, section 4.4).
#[derive(Clone, Copy, Debug, PartialEq, Eq)]
pub enum BodyRule {
    /// There is no body.
    Empty,
    /// It has so many bytes.
    Length(u64),
    /// It is in the chunked coding (section 3.6.1).
    Chunked,
    /// It goes on to the end of the connection.
    ToEnd,
}

/// What the bytes of a body are so far.
#[derive(Clone, Copy, Debug, PartialEq, Eq)]
pub enum BodyState {
    /// More are to come.
    Going,
    /// They are a body.
    Done,
    /// They begin no body, whatever follows.
    Bad,
}

/// What the end of the connection makes of the bytes before it.
#[derive(Clone, Copy, Debug, PartialEq, Eq)]
pub enum Ending {
    /// A body.
    Whole,
    /// A body that was cut short, or none.
    Short,
}

/// What a decoder took of the bytes that it was fed.
#[derive(Clone, Copy, Debug, PartialEq, Eq)]
pub struct Fed {
    /// So many bytes were taken.
    pub used: usize,
    /// Of these, the half-open span from the first to the second offset is the data.
    pub body: (usize, usize),
    /// The state after them.
    pub state: BodyState,
}
