// The asks that are not answered whole.
ghost use Rattle.std.specs.Prelude.{◌≡◌, ℕ, ◌-◌, ◌≤◌, count_by};
ghost use Rattle.pp_pipe.specs.Asks.{all_taken, ask_taken, awaited as awaited_of, is_outstanding, out_room, total as total_of};

/// Asks that a connection has at most.
pub const MAX_ASKS: usize = 8;

/// An ask: the text of a request's head. Its body does not go through the pipe.
#[derive(Clone, Copy, Debug, Default, PartialEq, Eq)]
pub(crate) struct Ask {
    /// Its method is HEAD, so that the response has no body.
    pub(crate) head_request: bool,
    /// A byte of it was taken.
    pub(crate) is_begun: bool,
    /// Bytes of its text that were not taken.
    pub(crate) text_left: usize,
}

impl Ask {
    /// So many bytes of it were taken, as far as it has them. Answers how many are left of them.
    fn take(&mut self, n: usize) -> usize
        ensures ask { self.new ≡ ask_taken n self.old }
        ensures left { result ≡ n - self.old.text_left }
    {
        let taken = n.min(self.text_left);
        self.is_begun = self.is_begun || taken > 0;
        self.text_left -= taken;
        n - taken
    }
}

/// Whether the response that comes next is one to HEAD. `None` where the text of the ask that is
/// next was not taken whole.
pub(crate) fn awaited(asks: &[Ask]) -> Option<bool>
    ensures { result ≡ awaited_of asks.now }
{
    let ask = asks.first()?;
    if ask.text_left == 0 {
        Some(ask.head_request)
    } else {
        None
    }
}

/// How many of them may be answered: their text was taken.
pub(crate) fn outstanding(asks: &[Ask]) -> usize
    ensures { result ≡ count_by is_outstanding asks.now }
{
    asks.iter().filter(|ask| ask.text_left == 0).count()
}

/// Bytes of these asks that are to be written.
pub(crate) fn total(asks: &[Ask]) -> usize
    requires { total_of asks.now ≤ out_room }
    ensures { result ≡ total_of asks.now }
{
    let mut sum = 0;
    for ask in asks {
        sum += ask.text_left;
    }
    sum
}

/// So many bytes of them were taken, those of the first before those of the next.
pub(crate) fn take(asks: &mut [Ask], n: usize)
    ensures { asks.new ≡ all_taken n asks.old }
{
    let mut left = n;
    for index in 0..asks.len() {
        left = asks[index].take(left);
    }
}
