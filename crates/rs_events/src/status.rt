ghost use Rattle.std.specs.Prelude.{◌≡◌};
ghost use Rattle.rs_events.specs.Status.{exit_status_of};

/// How a run ended.
#[derive(Clone, Copy, Debug, PartialEq, Eq)]
pub enum Status {
    Done = 0,
    Memory = 1,
    Usage = 2,
    Read = 3,
    Write = 4,
    Script = 5,
    Table = 6,
    BadScore = 7,
    Probe = 8,
    Session = 9,
}

impl Status {
    /// The exit status of the program.
    pub fn number(self) -> u8
        ensures { result ≡ exit_status_of self }
    {
        self as u8
    }
}
