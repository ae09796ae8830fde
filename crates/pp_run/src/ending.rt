// How the program ends.
ghost use Rattle.std.specs.Prelude.{◌≡◌};
ghost use Rattle.pp_run.specs.Exits.{status_of};

/// How the program ends.
#[derive(Clone, Copy, Debug, PartialEq, Eq)]
pub enum Exit {
    /// It served until it was stopped, or for the most turns that its settings allow.
    Served,
    /// The same; but memory was refused for what its promise on the log rests on, or a loop ended at its bound.
    ServedAstray,
    /// Its words are not understood.
    Usage,
    /// Memory was asked for and not given.
    NoMemory,
    /// The folder of the cache could not be listed.
    NoDisk,
    /// It may not listen on its port.
    NoListener,
    /// The configuration could not be read, or is not understood.
    NoConfig,
}

impl Exit {
    /// The status that the process ends with.
    pub fn status(self) -> u8
        ensures { result ≡ status_of self }
    {
        match self {
            Exit::Served | Exit::ServedAstray => 0,
            Exit::Usage => 2,
            Exit::NoMemory => 3,
            Exit::NoDisk => 4,
            Exit::NoListener => 5,
            Exit::NoConfig => 6,
        }
    }
}
