ghost use Rattle.std.specs.Prelude.{◌≡◌, ◌<◌, ◌+◌, ◌-◌, ◌^◌};

/// How often a node was asked, and how many rows it gave.
#[derive(Clone, Copy, Debug, PartialEq, Eq)]
pub(crate) struct Tally {
    pub(crate) asked: u128,
    pub(crate) gave: u128,
}

impl Tally {
    pub(crate) fn new() -> Tally
        ensures { result ≡ record { asked = 0; gave = 0 } }
    {
        Tally { asked: 0, gave: 0 }
    }

    /// One ask more.
    pub(crate) fn ask(&mut self)
        requires { self.old.asked < 2 ^ 128 - 1 }
        ensures { self.new ≡ record self.old { asked = self.old.asked + 1 } }
    {
        self.asked += 1;
    }

    /// One row more.
    pub(crate) fn give(&mut self)
        requires { self.old.gave < 2 ^ 128 - 1 }
        ensures { self.new ≡ record self.old { gave = self.old.gave + 1 } }
    {
        self.gave += 1;
    }
}
