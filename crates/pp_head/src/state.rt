// What a reader of heads answers.

/// A head at the front of some bytes, or why there is none: the first that applies.
#[derive(Drop)]
pub enum HeadState<H> {
    /// A head stands there whole, within the limits.
    Whole(H),
    /// As many bytes or line ends are there as a head may have, and it is not whole.
    TooLong,
    /// No bytes that may follow make a head of the grammar, of any size, and the bytes do not end inside a
    /// request target.
    Bad,
    /// Some bytes may follow that make a head, or the bytes end inside a request target.
    More,
}
