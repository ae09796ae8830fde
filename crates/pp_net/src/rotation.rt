// Whose turn it is, so that nobody waits for ever while others are served.
//
// Writing, reading and accepting come in turn. Of those that are written the connection in the place after the
// one that was written last comes first, in whatever order the wanted connections are named; of those that are
// read the one that was read longest ago.
ghost use Rattle.std.specs.Prelude.{◌≡◌};

/// What is tried first.
#[derive(Clone, Copy, Debug, PartialEq, Eq)]
pub enum Turn {
    Write,
    Read,
    Accept,
}

impl Turn {
    pub fn next(self) -> Turn {
        match self {
            Turn::Write => Turn::Read,
            Turn::Read => Turn::Accept,
            Turn::Accept => Turn::Write,
        }
    }
}

#[derive(Clone, Copy, Debug)]
pub struct Rotation {
    pub turn: Turn,
    /// The number of the connection that was written to last, or 0.
    pub last_written: u64,
}

impl Rotation {
    pub const START: Rotation = Rotation {
        turn: Turn::Write,
        last_written: 0,
    };

    /// Whose turn it is, and with the next call that of the next.
    pub fn pass(&mut self) -> Turn
        ensures turn { result ≡ self.old.turn }
        ensures places { self.new ≡ record self.old { turn = self.new.turn } }
    {
        let turn = self.turn;
        self.turn = turn.next();
        turn
    }
}
