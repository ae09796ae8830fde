// Which calls fail, by their numbers.
ghost use Rattle.std.specs.Prelude.{◌≡◌};
ghost use Rattle.pp_memworld.specs.Calls.{call_number, is_failing};

/// The calls that can fail, numbered from 1 in the order in which they are made, and the numbers of
/// those that do.
#[derive(Drop)]
pub(crate) struct Calls {
    failing: Vec<u64>,
    /// How many were made. The count stands still at its type's end.
    made: u64,
}

impl Calls {
    pub(crate) fn new(failing: Vec<u64>) -> Calls
        ensures failing { result.failing.items ≡ failing.items }
        ensures made { result.made ≡ 0 }
    {
        Calls { failing, made: 0 }
    }

    /// Whether the next call fails.
    pub(crate) fn is_failing(&self) -> bool
        ensures { result ≡ is_failing self.now.made self.now.failing.items }
    {
        let number = self.made.saturating_add(1);
        self.failing.iter().any(|n| *n == number)
    }

    /// The call was made.
    pub(crate) fn count(&mut self)
        ensures made { self.new.made ≡ call_number self.old.made }
        ensures failing { self.new.failing.items ≡ self.old.failing.items }
    {
        self.made = self.made.saturating_add(1);
    }
}
