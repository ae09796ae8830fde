// What the operator's log says: a line for each reply. It is beside the log of happenings, and no promise reads it.

/// Where the operator's log of replies is written.
#[derive(Clone, Copy, Debug)]
pub enum AccessLog<'a> {
    Nowhere,
    /// To the console, where the lines go with which the proxy ends.
    Console,
    /// To the end of the file of this name. Where the file was moved away, one of its name is made anew.
    File(&'a str),
}

/// What a reply was made of.
#[derive(Clone, Copy, Debug, PartialEq, Eq)]
pub enum Source {
    /// All of it was held.
    Hit,
    /// Some of it was held, and the rest was asked for.
    Part,
    /// It was held, and its origin said that it still stands.
    Checked,
    /// Its origin's response, which is kept.
    Fetched,
    /// Its origin's response, which is not kept.
    Passed,
    /// A page of the proxy's own.
    Refused,
}

/// A reply that is over.
#[derive(Clone, Copy, Debug)]
pub struct Replied<'a> {
    /// The number of the client's connection.
    pub client: u64,
    /// The first line of its request as it came, without the line's end.
    pub request: &'a [u8],
    pub status: u16,
    /// Bytes of its body that were said.
    pub body_len: u64,
    pub source: Source,
    /// It ended before all of it was said.
    pub is_cut: bool,
}
