// What the bytes that came tell.

/// What the bytes that a connection brought tell next.
#[derive(Clone, Copy, Debug, PartialEq, Eq)]
pub enum Step {
    /// The head of a final response is whole.
    Head,
    /// Data of its body: the half-open span of the bytes from the first to the second offset.
    Body(usize, usize),
    /// The response is whole.
    End,
    /// This is no response to an ask, whatever follows.
    Bad,
    /// Nothing yet: all bytes are used.
    Idle,
}
